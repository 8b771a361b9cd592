// A stretch: many points of a part in one loop (document 01, "Adding a point", for lines and polygons that have begun).
// The state is sound, and a point with room for all that it can bring is emitted without a plan.
ghost use Rattle.std.specs.Prelude.{◌≡◌, true, false, ◌&&◌, ◌||◌, ◌+◌, ◌-◌, ◌/◌, ◌≤◌, leb, length};
ghost use Rattle.promise.specs.Answers.{Gives};
ghost use Rattle.clip.specs.Domain.{is_coord, is_good};
ghost use Rattle.words.specs.Geometries.{max_words};
ghost use Rattle.encoder.specs.Boundary.{outside};
ghost use Rattle.encoder.specs.Points.{in_limit};
ghost use Rattle.encoder.specs.Stretches.{is_start, Ongoing, emissions_by, reckoned, spare_of, Counting, run, last_point, stretched};
ghost use Rattle.number.specs.Least.{smaller};
ghost use Rattle.encoder.specs.Tallies.{max_tally, counts_fit};
ghost use Rattle.encoder.specs.States.{Sound};
ghost use Rattle.encoder.specs.Pens.{state_of, marked_if, marked_ends, drawn_by, Able, Steady};

use crate::GeomEncoder;
use crate::boundary::{Ends, clip_raw, is_outside, moved_ends};
use crate::draft::{Draft, draft_of, state_of};
use crate::pen::{Pen, emit, set_raw};
use crate::points::make_point;
use crate::tally::Tally;
use clip::{BBox, Pt, Seg};
use words::geometry::Geometry;

#[derive(Clone, Copy)]
pub struct Stretch {
    pub state: GeomEncoder,
    pub reached: usize, // the first point that is not taken
}

// An end that may have moved. A moved end lies on an edge of the box, so it is not clamped.
fn emit_if(ring: bool, pen: Pen, end: Option<Pt>, words: &mut [u32]) -> Pen
    requires able { Able 2 pen (length words.old) }
    requires end_value { in_limit end ≡ true }
    ensures { Gives (marked_if ring pen end words.old) result words.new }
{
    match end {
        None => pen,
        Some(q) => emit(ring, pen, q, words),
    }
}

// Each end that moved, in order.
fn emit_ends(ring: bool, pen: Pen, ends: Ends, words: &mut [u32]) -> Pen
    requires able { Able 4 pen (length words.old) }
    requires end0_value { in_limit ends.end0 ≡ true }
    requires end1_value { in_limit ends.end1 ≡ true }
    ensures { Gives (marked_ends ring pen ends words.old) result words.new }
{
    let first = emit_if(ring, pen, ends.end0, words);
    emit_if(ring, first, ends.end1, words)
}

// A segment that has an end outside: each moved end, then the point itself.
fn cross(b: BBox, ring: bool, pen: Pen, p: Pt, words: &mut [u32]) -> Pen
    requires b_value { is_good b ≡ true }
    requires steady { Steady pen (length words.old) }
    requires p_value { is_coord p ≡ true }
    ensures { Gives (drawn_by b ring pen p words.old) result words.new }
{
    let cut = clip_raw(Seg { p0: pen.raw, p1: p }, b);
    let moved = moved_ends(pen.raw, p, cut);
    let ends = emit_ends(ring, pen, moved, words);
    let q = make_point(p, b);
    let last = emit(ring, ends, q, words);
    set_raw(last, p)
}

// A point, with what it brings. Most segments lie inside the box and bring nothing, so they are not clipped.
fn draw(b: BBox, ring: bool, pen: Pen, p: Pt, crossing: bool, words: &mut [u32]) -> Pen
    requires b_value { is_good b ≡ true }
    requires steady { Steady pen (length words.old) }
    requires p_value { is_coord p ≡ true }
    requires crossing_value { crossing ≡ (outside b pen.raw || outside b p) }
    ensures { Gives (drawn_by b ring pen p words.old) result words.new }
{
    if crossing {
        return cross(b, ring, pen, p, words);
    }
    let last = emit(ring, pen, p, words);
    set_raw(last, p)
}

// Whether a stretch starts from this draft: a line or a polygon with two points in this part.
fn is_start(d: Draft) -> bool
    ensures { result ≡ is_start d }
{
    (d.kind != Geometry::POINT) & (2 <= d.pen.count) & d.joins & d.has0 & d.has1
}

// The state that the pen has come to with so many points more. Each emission is a vertex more, a point skipped or one taken out; those that are not
// points are boundary points.
fn state_with(s: GeomEncoder, start: Pen, pen: Pen, points: usize) -> GeomEncoder
    requires count_le_max_words { pen.count ≤ max_words }
    requires count_le_max_words_2 { start.count ≤ max_words }
    requires start_value { counts_fit (state_of s start).tally ≡ true }
    requires points_value { counts_fit (reckoned s start pen points).tally ≡ true }
    requires points_bound { emissions_by start + points ≤ emissions_by pen }
    ensures { result ≡ reckoned s start pen points }
{
    let taken = s.tally.taken as usize;
    let boundary = s.tally.boundary as usize;
    let before = start.count + start.skipped + start.taken_out;
    let after = pen.count + pen.skipped + pen.taken_out;
    state_of(Draft {
        kind: s.kind,
        bbox: s.bbox,
        pen,
        joins: true,
        has0: true,
        has1: true,
        place: s.cmd_offset,
        taken: taken + points,
        boundary: boundary + (after - before - points),
    })
}

// ---- the loop
// Whether a point is taken: room for three emissions, and COORD, which no point of the box is refused for.
fn is_plain(used: usize, room: usize, p: Pt, out: bool) -> bool
    requires used_le_max_words { used ≤ max_words }
    requires p_value { out ≡ false → is_coord p ≡ true }
    ensures { result ≡ (leb (used + 6) room && is_coord p) }
{
    if room < used + 6 {
        return false;
    }
    if out {
        return BBox::is_coord(p);
    }
    true
}

fn draw_all(
    s: GeomEncoder,
    start: Pen,
    points: &[i32],
    from: usize,
    end: usize,
    words: &mut [u32],
) -> Stretch
    requires end_in_bounds { end ≤ length points.now / 2 }
    requires ongoing { Ongoing s start (length words.old) }
    requires counting { Counting (state_of s start) (end - from) }
    ensures { Gives (run (end - from) points.now from (state_of s start) words.old) result words.new }
{
    let bbox = s.bbox;
    let ring = s.kind == Geometry::POLYGON;
    let room = Geometry::room(words.len());
    let mut pen = start;
    let mut out = is_outside(start.raw, bbox);
    let mut i = from;
    // No `for`: how far it came is asked behind it, and where `from` is beyond `end` that is `from`.
    while i < end {
        let x = points[2 * i];
        let y = points[2 * i + 1];
        let p = Pt { x, y };
        let next = is_outside(p, bbox);
        if !is_plain(pen.used, room, p, next) {
            return Stretch {
                state: state_with(s, start, pen, i - from),
                reached: i,
            };
        }
        pen = draw(bbox, ring, pen, p, out | next, words);
        out = next;
        i += 1;
    }
    Stretch {
        state: state_with(s, start, pen, i - from),
        reached: i,
    }
}

fn last_point(length: usize, to: usize) -> usize
    ensures { result ≡ last_point length to }
{
    to.min(length / 2)
}

// So many points can be taken before a count could be too large: each brings at most three emissions.
fn spare(t: Tally) -> usize
    ensures { result ≡ spare_of t }
{
    let given = t.taken as usize + t.boundary as usize;
    Tally::MAX.saturating_sub(given) / 3
}

// The end, or so many points from `from` on.
fn within(from: usize, end: usize, most: usize) -> usize
    ensures { (result - from ≡ smaller (end - from) most) × (result ≤ end) }
{
    if end <= from {
        return end;
    }
    if end - from <= most {
        return end;
    }
    from + most
}

// Adds the points from `from` on, up to the first that is not plain, or to `to`.
pub(crate) fn add_stretch(
    s: GeomEncoder,
    points: &[i32],
    from: usize,
    to: usize,
    words: &mut [u32],
) -> Stretch
    requires { Sound s (length words.old) }
    ensures { Gives (stretched s points.now from to words.old) result words.new }
{
    let d = draft_of(s);
    if !is_start(d) {
        return Stretch {
            state: s,
            reached: from,
        };
    }
    let end = within(from, last_point(points.len(), to), spare(s.tally));
    draw_all(s, d.pen, points, from, end, words)
}

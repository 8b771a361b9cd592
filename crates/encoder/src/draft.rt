// A state in plain numbers, and the draft after one emission, of any state (document 01, "Adding a point"): made of the steps of `pen`, but here a
// command may be due, and a point may be missing.
ghost use Rattle.std.specs.Prelude.{◌≡◌, true, ◌+◌, ◌≤◌};
ghost use Rattle.encoder.specs.Adding.{ended};
ghost use Rattle.encoder.specs.Emitting.{begun, skipped, emitted_at};
ghost use Rattle.encoder.specs.Planning.{plan_limit, Ready, Few};
ghost use Rattle.encoder.specs.Points.{is_last};
ghost use Rattle.encoder.specs.Drafts.{draft_of, state_in, ringing, pushed_to, pushed_by, one_if, taken_by};
ghost use Rattle.encoder.specs.Tallies.{max_tally, counts_fit};

use crate::GeomEncoder;
use crate::boundary::Ends;
use crate::commands::push_command;
use crate::pen::{Pen, advance, before_push, pass_point, set_raw};
use crate::points::{is_same, last_of};
use crate::tally::Tally;
use clip::{BBox, Pt};
use words::geometry::Geometry;

// A state; a point that it has none of is not looked at.
#[derive(Clone, Copy)]
pub(crate) struct Draft {
    pub kind: u32,
    pub bbox: BBox,
    pub pen: Pen,
    pub joins: bool, // whether there is a raw point
    pub has0: bool, // whether there is a point before the last
    pub has1: bool, // whether there is a last point
    pub place: usize,
    pub taken: usize,
    pub boundary: usize,
}

// ---- states
pub(crate) fn draft_of(s: GeomEncoder) -> Draft
    ensures { result ≡ draft_of s }
{
    Draft {
        kind: s.kind,
        bbox: s.bbox,
        pen: Pen {
            raw: last_of(s.xy_end),
            pt0: last_of(s.pt0),
            pt1: last_of(s.pt1),
            count: s.count as usize,
            used: s.used,
            skipped: s.tally.skipped as usize,
            taken_out: s.tally.taken_out as usize,
        },
        joins: s.xy_end.is_some(),
        has0: s.pt0.is_some(),
        has1: s.pt1.is_some(),
        place: s.cmd_offset,
        taken: s.tally.taken as usize,
        boundary: s.tally.boundary as usize,
    }
}

pub(crate) fn state_of(d: Draft) -> GeomEncoder
    requires count_bound { d.pen.count ≤ plan_limit + 4 }
    requires d_value { counts_fit (state_in d).tally ≡ true }
    ensures { result ≡ state_in d }
{
    let count = d.pen.count as u32;
    let taken = d.taken as u32;
    let boundary = d.boundary as u32;
    let skipped = d.pen.skipped as u32;
    let taken_out = d.pen.taken_out as u32;
    GeomEncoder {
        kind: d.kind,
        bbox: d.bbox,
        xy_end: d.joins.then_some(d.pen.raw),
        pt0: d.has0.then_some(d.pen.pt0),
        pt1: d.has1.then_some(d.pen.pt1),
        cmd_offset: d.place,
        count,
        used: d.pen.used,
        tally: Tally {
            taken,
            boundary,
            skipped,
            taken_out,
        },
    }
}

// ---- a point taken
fn one_if(end: Option<Pt>) -> usize
    ensures { result ≡ one_if end }
{
    match end {
        None => 0,
        Some(_) => 1,
    }
}

// One more point, and the boundary points that it brings.
pub(crate) fn take_point(d: Draft, ends: Ends) -> Draft
    requires taken_le_max_tally { d.taken ≤ max_tally }
    requires boundary_le_max_tally { d.boundary ≤ max_tally }
    ensures { result ≡ taken_by d ends }
{
    let first = one_if(ends.end0);
    let second = one_if(ends.end1);
    Draft {
        taken: d.taken + 1,
        boundary: d.boundary + (first + second),
        ..d
    }
}

// ---- one emission, planned
// Whether q is the last point again.
pub(crate) fn is_again(d: Draft, q: Pt) -> bool
    ensures { result ≡ is_last (state_in d).pt1 q }
{
    let same = is_same(d.pen.pt1, q);
    d.has1 & same
}

fn begin(count: usize) -> usize
    ensures { result ≡ begun count }
{
    count.max(1)
}

// A point equal to the last one is counted; a count of 0 becomes 1, nothing else.
fn skip_point(d: Draft) -> Draft
    requires { Few 1 (state_in d) }
    ensures { state_in result ≡ (skipped (state_in d)).next }
{
    let pen = pass_point(d.pen);
    Draft {
        pen: Pen {
            count: begin(pen.count),
            ..pen
        },
        ..d
    }
}

// Whether the last point may be taken out.
fn is_ring(d: Draft) -> bool
    ensures { result ≡ ringing d }
{
    (d.kind == Geometry::POLYGON) & (2 <= d.pen.count) & d.has0 & d.has1
}

// The draft after q is pushed from this pen, with the last command at that place.
fn push_to(d: Draft, base: Pen, q: Pt, place: usize) -> Draft
    requires count_le_plan_limit { base.count ≤ plan_limit }
    requires used_bound { base.used ≤ plan_limit + 1 }
    ensures { result ≡ pushed_to d base q place }
{
    Draft {
        pen: advance(base, q),
        has0: d.has1,
        has1: true,
        place,
        ..d
    }
}

// The two steps to q, behind a command or not.
fn push_point(word: Option<u32>, d: Draft, base: Pen, q: Pt) -> Draft
    requires count_le_plan_limit { base.count ≤ plan_limit }
    requires used_le_plan_limit { base.used ≤ plan_limit }
    ensures { result ≡ pushed_by word d base q }
{
    match word {
        None => push_to(d, base, q, d.place),
        Some(_) => {
            let behind = Pen {
                used: base.used + 1,
                ..base
            };
            push_to(d, behind, q, base.used)
        }
    }
}

// The draft after a point of the box is emitted.
pub(crate) fn emit_point(d: Draft, q: Pt) -> Draft
    requires ready { Ready plan_limit (state_in d) }
    requires few { Few 1 (state_in d) }
    ensures { state_in result ≡ (emitted_at (state_in d) q).next }
{
    if is_again(d, q) {
        return skip_point(d);
    }
    let ring = is_ring(d);
    let base = before_push(ring, d.pen, q);
    let word = push_command(d.kind, d.pen.count);
    push_point(word, d, base, q)
}

// The raw end of this part is p, for lines and polygons.
pub(crate) fn set_end(d: Draft, p: Pt) -> Draft
    ensures { state_in result ≡ ended (state_in d) p }
{
    if d.kind == Geometry::POINT {
        return d;
    }
    Draft {
        pen: set_raw(d.pen, p),
        joins: true,
        ..d
    }
}

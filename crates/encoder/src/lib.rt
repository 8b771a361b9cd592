// Points to words (document 01, "Adding a point"; in the Rust: GeomEncoder of encoder.rs).
// A single point is planned first, as drafts of the state in plain numbers (`plan`, `draft`); then the room is asked for, and only then is anything
// written, so a refused call has not written.
// The whole job (`whole_job`) draws the points of a part that has begun in one loop (`stretch`), by the same steps (`pen`).
#![tactic(auto)]

ghost use Rattle.std.specs.Prelude.{◌≡◌, true, ◌≤◌, length};
ghost use Rattle.promise.specs.Answers.{Gives};
ghost use Rattle.clip.specs.Domain.{is_coord};
ghost use Rattle.words.specs.Geometries.{max_words};
ghost use Rattle.encoder.specs.States.{valid};
ghost use Rattle.encoder.specs.Answers.{said_started, started, said_drawn, roomy, none, edges_of, passed};
ghost use Rattle.encoder.specs.Boundary.{named_by};
ghost use Rattle.encoder.specs.Adding.{drawn, point_at, added, edges};
ghost use Rattle.encoder.specs.Completing.{cleared, finished, completed};
ghost use Rattle.encoder.specs.Drafts.{Alone};

use crate::boundary::{add_boundary_points, ends_of};
use crate::commands::{figures_fit, write_end};
use crate::draft::{Draft, draft_of, emit_point, set_end, state_of, take_point};
use crate::plan::{plan_point, write_plan, write_point};
use crate::points::{are_in_limit, make_point};
use crate::tally::{Tally, are_counts};
use clip::{BBox, ClippedSeg, Edge, Pt};
use refusal::{Refusal, Refused};
use words::geometry::Geometry;

mod boundary;
mod commands;
mod draft;
mod pen;
mod plan;
pub mod points;
pub mod run;
mod stretch;
pub mod tally;
pub mod whole_job;

// The state between calls; a carried one may be bad.
#[derive(Clone, Copy)]
pub struct GeomEncoder {
    pub tally: Tally, // what became of the points
    pub kind: u32,
    pub bbox: BBox,
    pub xy_end: Option<Pt>, // the last raw point of this part
    pub pt0: Option<Pt>, // the emitted point before the last
    pub pt1: Option<Pt>, // the last emitted point
    pub cmd_offset: usize, // the last command's place
    pub count: u32,
    pub used: usize,
}

// What became of the ends of the raw segment that a point ends: the first, which is the point before it, and the second.
#[derive(Clone, Copy)]
pub struct Edges {
    pub first: Edge,
    pub second: Edge,
}

// An accepted call's state, and what became of the ends; a refused one leaves the given state.
pub type Drawn = Result<(GeomEncoder, Edges), Refused<GeomEncoder>>;

// ---- the state
// Whether a state, with a lent list of that length, keeps every rule of STATE.
pub fn is_valid(s: GeomEncoder, length: usize) -> bool
    ensures { result ≡ valid s length }
{
    let kind = Geometry { kind: s.kind };
    let fits = figures_fit(s.used, s.count, s.cmd_offset, length);
    let kinds = kind.is_good();
    let boxes = BBox::is_good(s.bbox);
    let limits = are_in_limit(s.xy_end, s.pt0, s.pt1);
    let balances = s.tally.is_balanced();
    fits & kinds & boxes & limits & balances
}

// ---- completing
// The state after a part of a line or a polygon is completed, with the last command at that place and so many words used.
fn clear(s: GeomEncoder, place: usize, used: usize) -> GeomEncoder
    ensures { result ≡ cleared s place used }
{
    GeomEncoder {
        xy_end: None,
        pt0: None,
        cmd_offset: place,
        count: 0,
        used,
        ..s
    }
}

// The state after completing: one word further where a polygon is closed.
fn finish(s: GeomEncoder) -> GeomEncoder
    requires { s.used ≤ max_words }
    ensures { result ≡ finished s }
{
    if s.kind == Geometry::POINT {
        return s;
    }
    if (s.kind == Geometry::POLYGON) & (1 < s.count) {
        return clear(s, s.used, s.used + 1);
    }
    clear(s, s.cmd_offset, s.used)
}

// ---- the edges
// Those of a cut segment, and those where no segment is cut.
fn named(cut: ClippedSeg) -> Edges
    ensures { result ≡ named_by cut }
{
    Edges {
        first: cut.first,
        second: cut.second,
    }
}

fn no_edges() -> Edges
    ensures { result ≡ none }
{
    Edges {
        first: Edge::Stayed,
        second: Edge::Stayed,
    }
}

// ---- the calls
// A point that brings no boundary points, counted in the draft: ROOM; then what is written. Most points are such, and need no plan of three emissions.
fn draw_alone(s: GeomEncoder, d: Draft, p: Pt, q: Pt, words: &mut [u32]) -> Drawn
    requires { Alone s d p q }
    ensures answer { Gives (roomy s words.old (drawn s p words.old)) (said_drawn result) words.new }
    ensures edges { edges_of result ≡ none }
{
    let last = emit_point(d, q);
    let pen = last.pen;
    if !are_counts(last.taken, last.boundary, pen.skipped, pen.taken_out) {
        return Err(Refused {
            refusal: Refusal::Room,
            kept: s,
        });
    }
    let room = Geometry::room(words.len());
    if room < pen.used {
        return Err(Refused {
            refusal: Refusal::Room,
            kept: s,
        });
    }
    write_point(d, last, q, words);
    Ok((state_of(set_end(last, p)), no_edges()))
}

// A coordinate added to a state that breaks no rule: ROOM; then everything that is written.
fn draw(s: GeomEncoder, p: Pt, words: &mut [u32]) -> Drawn
    requires words_value { valid s (length words.old) ≡ true }
    requires p_value { is_coord p ≡ true }
    ensures answer { Gives (roomy s words.old (drawn s p words.old)) (said_drawn result) words.new }
    ensures edges { edges_of result ≡ passed (roomy s words.old (drawn s p words.old)).answer (edges s p) }
{
    let d = draft_of(s);
    let cut = add_boundary_points(d, p);
    let ends = ends_of(cut);
    let q = make_point(p, d.bbox);
    let t = take_point(d, ends);
    let stayed0 = ends.end0.is_none();
    let stayed1 = ends.end1.is_none();
    if stayed0 & stayed1 {
        return draw_alone(s, t, p, q, words);
    }
    let plan = plan_point(t, ends, q);
    let last = plan.last;
    let pen = last.pen;
    if !are_counts(last.taken, last.boundary, pen.skipped, pen.taken_out) {
        return Err(Refused {
            refusal: Refusal::Room,
            kept: s,
        });
    }
    let room = Geometry::room(words.len());
    if room < pen.used {
        return Err(Refused {
            refusal: Refusal::Room,
            kept: s,
        });
    }
    write_plan(t, plan, ends, q, words);
    Ok((state_of(set_end(last, p)), named(cut)))
}

// A point added to a state that breaks no rule: COORD, ROOM.
pub(crate) fn add_valid(s: GeomEncoder, p: Pt, words: &mut [u32]) -> Drawn
    requires { valid s (length words.old) ≡ true }
    ensures answer { Gives (added s p words.old) (said_drawn result) words.new }
    ensures edges { edges_of result ≡ passed (added s p words.old).answer (edges s p) }
{
    if !BBox::is_coord(p) {
        return Err(Refused {
            refusal: Refusal::Coord,
            kept: s,
        });
    }
    draw(s, p, words)
}

// A part of a state that breaks no rule, completed: EMPTY, ROOM; then everything that is written.
pub(crate) fn complete_valid(s: GeomEncoder, words: &mut [u32]) -> Drawn
    requires { valid s (length words.old) ≡ true }
    ensures answer { Gives (completed s words.old) (said_drawn result) words.new }
    ensures edges { edges_of result ≡ none }
{
    if (s.kind == Geometry::POINT) & (s.count == 0) {
        return Err(Refused {
            refusal: Refusal::Empty,
            kept: s,
        });
    }
    let next = finish(s);
    let room = Geometry::room(words.len());
    if room < next.used {
        return Err(Refused {
            refusal: Refusal::Room,
            kept: s,
        });
    }
    write_end(s.kind, s.count, s.cmd_offset, s.used, words);
    Ok((next, no_edges()))
}

impl GeomEncoder {
    // A fresh encoder for a geometry of that kind in a box: KIND, BOX.
    pub fn new(kind: u32, bbox: BBox) -> Result<GeomEncoder, Refusal>
        ensures { said_started result ≡ started kind bbox }
    {
        let geometry = Geometry { kind };
        if !geometry.is_good() {
            return Err(Refusal::Kind);
        }
        if !BBox::is_good(bbox) {
            return Err(Refusal::Box);
        }
        Ok(GeomEncoder {
            kind,
            bbox,
            xy_end: None,
            pt0: None,
            pt1: None,
            cmd_offset: 0,
            count: 0,
            used: 0,
            tally: Tally::none(),
        })
    }

    // How many points the part has so far.
    pub fn count(self) -> u32
        ensures { result ≡ self.count }
    {
        self.count
    }

    // How many words are used.
    pub fn len(self) -> usize
        ensures { result ≡ self.used }
    {
        self.used
    }

    // Adds a point to the words: STATE, COORD, ROOM.
    pub fn add_point(self, x: i32, y: i32, words: &mut [u32]) -> Drawn
        ensures answer { Gives (added self (point_at x y) words.old) (said_drawn result) words.new }
        ensures edges { edges_of result ≡ passed (added self (point_at x y) words.old).answer (edges self (point_at x y)) }
    {
        if !is_valid(self, words.len()) {
            return Err(Refused {
                refusal: Refusal::State,
                kept: self,
            });
        }
        add_valid(self, Pt { x, y }, words)
    }

    // Completes a part: STATE, EMPTY, ROOM.
    pub fn complete_geom(self, words: &mut [u32]) -> Drawn
        ensures answer { Gives (completed self words.old) (said_drawn result) words.new }
        ensures edges { edges_of result ≡ none }
    {
        if !is_valid(self, words.len()) {
            return Err(Refused {
                refusal: Refusal::State,
                kept: self,
            });
        }
        complete_valid(self, words)
    }
}

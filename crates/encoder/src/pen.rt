// The pen: what points change of a state, in plain numbers, and the steps that every point is drawn by. One emission by these steps is `emit`, for a
// part that has begun: no command is due, and no point is missing.
ghost use Rattle.std.specs.Prelude.{◌≡◌, true, ◌&&◌, ◌+◌, ◌≤◌, ◌-ℤ◌, length};
ghost use Rattle.promise.specs.Answers.{Gives};
ghost use Rattle.promise.specs.Laid.{lay};
ghost use Rattle.clip.specs.Facts.{Coord, Within};
ghost use Rattle.words.specs.Params.{param};
ghost use Rattle.encoder.specs.Points.{between};
ghost use Rattle.encoder.specs.Emitting.{steps};
ghost use Rattle.encoder.specs.Planning.{plan_limit};
ghost use Rattle.encoder.specs.Tallies.{max_tally};
ghost use Rattle.encoder.specs.Pens.{with_raw, again, taken, before_push, onward, laid, marked, Fit, Able};

use crate::points::{is_between, is_same};
use clip::Pt;
use words::param::ParamInt;

// What an accepted point changes: the last raw point, the emitted one before the last, the last one, the two figures, and the points that are lost.
#[derive(Clone, Copy)]
pub(crate) struct Pen {
    pub raw: Pt,
    pub pt0: Pt,
    pub pt1: Pt,
    pub count: usize,
    pub used: usize,
    pub skipped: usize,
    pub taken_out: usize,
}

// ---- writing
// The parameter word of a step along x, or along y. Two numbers within the limit are less than 2^31 apart.
fn step(from: i32, to: i32) -> u32
    requires from_within { Within from }
    requires to_within { Within to }
    ensures { result ≡ param (to -ℤ from) }
{
    let d = ParamInt { value: to - from };
    d.encode()
}

pub(crate) fn write_steps(at: usize, from: Pt, to: Pt, words: &mut [u32])
    requires at_in_bounds { at + 2 ≤ length words.old }
    requires coord { Coord from }
    requires coord_2 { Coord to }
    ensures { words.new ≡ lay at (steps from to) words.old }
{
    let dx = step(from.x, to.x);
    let dy = step(from.y, to.y);
    words[at] = dx;
    words[at + 1] = dy;
}

// ---- one emission
// Whether the last emitted point is taken out before b; only a ring asks.
fn is_taken_out(ring: bool, a: Pt, m: Pt, b: Pt) -> bool
    ensures { result ≡ (ring && between a m b) }
{
    if !ring {
        return false;
    }
    is_between(a, m, b)
}

fn pop_point(pen: Pen) -> Pen
    requires le_count { 2 ≤ pen.count }
    requires le_used { 2 ≤ pen.used }
    requires taken_out_bound { pen.taken_out ≤ max_tally + 6 }
    ensures { result ≡ taken pen }
{
    Pen {
        pt1: pen.pt0,
        count: pen.count - 1,
        used: pen.used - 2,
        taken_out: pen.taken_out + 1,
        ..pen
    }
}

// The pen that q is pushed from.
pub(crate) fn before_push(ring: bool, pen: Pen, q: Pt) -> Pen
    requires le_count { ring ≡ true → (2 ≤ pen.count) × (2 ≤ pen.used) }
    requires taken_out_bound { pen.taken_out ≤ max_tally + 6 }
    ensures { result ≡ before_push ring pen q }
{
    if is_taken_out(ring, pen.pt0, pen.pt1, q) {
        return pop_point(pen);
    }
    pen
}

// The pen after two steps to q.
pub(crate) fn advance(pen: Pen, q: Pt) -> Pen
    requires count_le_plan_limit { pen.count ≤ plan_limit }
    requires used_bound { pen.used ≤ plan_limit + 1 }
    ensures { result ≡ (onward pen q).pen }
{
    Pen {
        pt0: pen.pt1,
        pt1: q,
        count: pen.count + 1,
        used: pen.used + 2,
        ..pen
    }
}

// The two steps from the last point.
fn push_point(pen: Pen, q: Pt, words: &mut [u32]) -> Pen
    requires fit { Fit pen (length words.old) }
    requires coord { Coord q }
    ensures { Gives (laid (onward pen q) words.old) result words.new }
{
    write_steps(pen.used, pen.pt1, q, words);
    advance(pen, q)
}

// A point equal to the last one is counted, and nothing else.
pub(crate) fn pass_point(pen: Pen) -> Pen
    requires { pen.skipped ≤ max_tally + 6 }
    ensures { result ≡ again pen }
{
    Pen {
        skipped: pen.skipped + 1,
        ..pen
    }
}

// A point of the box.
pub(crate) fn emit(ring: bool, pen: Pen, q: Pt, words: &mut [u32]) -> Pen
    requires able { Able 2 pen (length words.old) }
    requires coord { Coord q }
    ensures { Gives (marked ring pen q words.old) result words.new }
{
    if is_same(pen.pt1, q) {
        return pass_point(pen);
    }
    let base = before_push(ring, pen, q);
    push_point(base, q, words)
}

pub(crate) fn set_raw(pen: Pen, p: Pt) -> Pen
    ensures { result ≡ with_raw pen p }
{
    Pen { raw: p, ..pen }
}

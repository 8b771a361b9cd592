// Cutting a segment at the edges of a box (document 01, "Cutting a segment"; in the Rust: `clip` for i32 of encoder.rs, with `Pt`, `Seg` and `BBox` of pointy).
// No loop; a division only for a cut whose line the segment reaches with one end strictly outside; for a segment inside the box nothing but comparisons.
#![tactic(auto)]

ghost use Rattle.std.specs.Prelude.{◌≡◌, ◌&&◌};
ghost use Rattle.clip.specs.Domain.{limit, within, is_coord, is_good, is_inside};
ghost use Rattle.clip.specs.Facts.{beside, beside_x, beside_y};
ghost use Rattle.clip.specs.Cutting.{least, most, given, overlap};
ghost use Rattle.clip.specs.Answer.{said_clipped, are_coords, clipped};
ghost use Rattle.clip.specs.Numbers.{between, edge_number, is_moved};
ghost use Rattle.clip.specs.Demand3.{Demand3};

use crate::cutting::cut_all;
use refusal::Refusal;

mod cutting;

#[derive(Clone, Copy)]
pub struct Pt {
    pub x: i32,
    pub y: i32,
}

#[derive(Clone, Copy)]
pub struct Seg {
    pub p0: Pt,
    pub p1: Pt,
}

#[derive(Clone, Copy)]
pub struct BBox {
    pub x_min: i32,
    pub x_max: i32,
    pub y_min: i32,
    pub y_max: i32,
}

// What became of an end: it stayed as given, or the cut at that edge moved it. The definitions' `edge_number` has their numbers.
#[derive(Clone, Copy)]
pub enum Edge {
    Stayed,
    XMin,
    XMax,
    YMin,
    YMax,
}

// A clipped segment, and what became of its first and of its second end.
#[derive(Clone, Copy)]
pub struct ClippedSeg {
    pub seg: Seg,
    pub first: Edge,
    pub second: Edge,
}

impl Edge {
    // The number of what became of an end, 0 to 4 in the order of the cuts.
    pub fn number(self) -> u32
        ensures { result ≡ edge_number self }
    {
        match self {
            Edge::Stayed => 0,
            Edge::XMin => 1,
            Edge::XMax => 2,
            Edge::YMin => 3,
            Edge::YMax => 4,
        }
    }

    // Whether the end was moved.
    pub fn is_moved(self) -> bool
        ensures { result ≡ is_moved self }
    {
        match self {
            Edge::Stayed => false,
            Edge::XMin | Edge::XMax | Edge::YMin | Edge::YMax => true,
        }
    }
}

impl BBox {
    // The largest coordinate and the largest box edge; the least is its opposite.
    pub const LIMIT: i32 = 1073741823;

    // The definitions' own number is the constant.
    pub fn limit() -> i32
        ensures { result ≡ limit }
    {
        BBox::LIMIT
    }

    // Whether a number lies within the limit.
    pub fn is_within(z: i32) -> bool
        ensures { result ≡ within z }
    {
        (-BBox::LIMIT <= z) & (z <= BBox::LIMIT)
    }

    // Whether a point lies within the limit; where it does not, a call refuses it as COORD.
    pub fn is_coord(p: Pt) -> bool
        ensures { result ≡ is_coord p }
    {
        BBox::is_within(p.x) & BBox::is_within(p.y)
    }

    // Whether a box is good; where it is not, a call refuses it as BOX. The lower edge lies below the upper one, so each is asked for one end of the limit.
    pub fn is_good(b: BBox) -> bool
        ensures { result ≡ is_good b }
    {
        (b.x_min < b.x_max)
            & (b.y_min < b.y_max)
            & (-BBox::LIMIT <= b.x_min)
            & (b.x_max <= BBox::LIMIT)
            & (-BBox::LIMIT <= b.y_min)
            & (b.y_max <= BBox::LIMIT)
    }

    // Whether a point lies in the closed box. A segment with both ends in a good box is accepted and stays as given, and need not be clipped to see it.
    pub fn is_inside(b: BBox, p: Pt) -> bool
        ensures { result ≡ is_inside b p }
    {
        (b.x_min <= p.x) & (p.x <= b.x_max) & ((b.y_min <= p.y) & (p.y <= b.y_max))
    }

    // Whether the segment's bounding rectangle and the box overlap, edges counted. A segment without overlap stays as given, and need not be clipped to see
    // it.
    pub fn overlaps(b: BBox, s: Seg) -> bool
        ensures { result ≡ overlap b s }
    {
        if is_beside(b, s) {
            return false;
        }
        !is_beyond(b, s)
    }

    // The lower and the upper corner.
    fn low(b: BBox) -> Pt
        ensures { result ≡ record { x = b.x_min; y = b.y_min } }
    {
        Pt {
            x: b.x_min,
            y: b.y_min,
        }
    }

    fn high(b: BBox) -> Pt
        ensures { result ≡ record { x = b.x_max; y = b.y_max } }
    {
        Pt {
            x: b.x_max,
            y: b.y_max,
        }
    }
}

// The smaller and the larger of two numbers.
fn least_of(m: i32, n: i32) -> i32
    ensures { result ≡ least m n }
{
    if m <= n { m } else { n }
}

fn most_of(m: i32, n: i32) -> i32
    ensures { result ≡ most m n }
{
    if m <= n { n } else { m }
}

// Whether two numbers lie within the limit, asked of the smaller and the larger: the overlap test needs these too.
fn are_within(m: i32, n: i32) -> bool
    ensures { result ≡ (within m && within n) }
{
    (-BBox::LIMIT <= least_of(m, n)) & (most_of(m, n) <= BBox::LIMIT)
}

// Whether both ends lie within the limit.
fn are_coords(s: Seg) -> bool
    ensures { result ≡ are_coords s }
{
    let Seg { p0, p1 } = s;
    are_within(p0.x, p1.x) & are_within(p0.y, p1.y)
}

// Whether two numbers lie both below a range or both above it.
fn are_beside(m: i32, n: i32, low: i32, high: i32) -> bool
    ensures { result ≡ beside m n low high }
{
    if most_of(m, n) < low {
        return true;
    }
    high < least_of(m, n)
}

// Whether a segment lies beside the box in x, and in y: it has no point in the box, and stays as given.
fn is_beside(b: BBox, s: Seg) -> bool
    ensures { result ≡ beside_x b s }
{
    let Seg { p0, p1 } = s;
    are_beside(p0.x, p1.x, b.x_min, b.x_max)
}

fn is_beyond(b: BBox, s: Seg) -> bool
    ensures { result ≡ beside_y b s }
{
    let Seg { p0, p1 } = s;
    are_beside(p0.y, p1.y, b.y_min, b.y_max)
}

// A segment as given: no end is moved.
pub fn stay(s: Seg) -> ClippedSeg
    ensures { result ≡ given s }
{
    ClippedSeg {
        seg: s,
        first: Edge::Stayed,
        second: Edge::Stayed,
    }
}

// The segment cut at the box: BOX, then COORD, else the clipped segment.
pub fn clip(seg: Seg, bbox: BBox) -> Result<ClippedSeg, Refusal>
    ensures answer { said_clipped result ≡ clipped seg bbox }
    ensures demand3 { (c : ClippedSeg) → result ≡ Ok c → Demand3 bbox seg c }
{
    if !BBox::is_good(bbox) {
        return Err(Refusal::Box);
    }
    if !are_coords(seg) {
        return Err(Refusal::Coord);
    }
    if is_beside(bbox, seg) {
        return Ok(stay(seg));
    }
    if is_beyond(bbox, seg) {
        return Ok(stay(seg));
    }
    Ok(cut_all(seg.p0, seg.p1, BBox::low(bbox), BBox::high(bbox)))
}

// The same of two points, for callers that have the ends so. It repeats `clip` and does not call it: with one caller of `cut_all` a crossing clip is slower.
pub fn clip_between(from: Pt, to: Pt, bbox: BBox) -> Result<ClippedSeg, Refusal>
    ensures { said_clipped result ≡ clipped (between from to) bbox }
{
    let seg = Seg { p0: from, p1: to };
    if !BBox::is_good(bbox) {
        return Err(Refusal::Box);
    }
    if !are_coords(seg) {
        return Err(Refusal::Coord);
    }
    if is_beside(bbox, seg) | is_beyond(bbox, seg) {
        return Ok(stay(seg));
    }
    Ok(cut_all(from, to, BBox::low(bbox), BBox::high(bbox)))
}

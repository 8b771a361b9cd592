// A segment cut at a box, from C: eight numbers go in, the refusal, four numbers and what became of each end come back.
ghost use Rattle.std.specs.Prelude.{◌≡◌, [], ◌∷◌};
ghost use Rattle.refusal.specs.Refusals.{number_of};
ghost use Rattle.clip.specs.Answer.{clipped};
ghost use Rattle.clip.specs.Cutting.{given};
ghost use Rattle.clip.specs.Numbers.{seg_at, box_at};
ghost use Rattle.brinepost.specs.Segments.{ends, flat_clip};

use clip::{BBox, Edge, Pt, Seg};
use refusal::Refusal;

#[repr(C)]
#[derive(Clone, Copy)]
pub struct BpClipped {
    pub refusal: u32,
    pub x0: i32,
    pub y0: i32,
    pub x1: i32,
    pub y1: i32,
    pub edge0: u32, // what became of each end, by its number
    pub edge1: u32,
}

// The answer of a segment that is accepted, of one that stays as given, and of a refused call.
fn accepted(x0: i32, y0: i32, x1: i32, y1: i32, first: Edge, second: Edge) -> BpClipped
    ensures { result ≡ ends 0 (record { seg = seg_at x0 y0 x1 y1; first = first; second = second } ∷ []) }
{
    BpClipped {
        refusal: 0,
        x0: x0,
        y0: y0,
        x1: x1,
        y1: y1,
        edge0: first.number(),
        edge1: second.number(),
    }
}

fn kept(x0: i32, y0: i32, x1: i32, y1: i32) -> BpClipped
    ensures { result ≡ ends 0 (given (seg_at x0 y0 x1 y1) ∷ []) }
{
    accepted(x0, y0, x1, y1, Edge::Stayed, Edge::Stayed)
}

fn refused(k: Refusal) -> BpClipped
    ensures { result ≡ ends (number_of k) [] }
{
    BpClipped {
        refusal: refusal::number(k),
        x0: 0,
        y0: 0,
        x1: 0,
        y1: 0,
        edge0: 0,
        edge1: 0,
    }
}

// A box and a segment from their numbers.
fn make_box(left: i32, right: i32, bottom: i32, top: i32) -> BBox
    ensures { result ≡ box_at left right bottom top }
{
    BBox {
        x_min: left,
        x_max: right,
        y_min: bottom,
        y_max: top,
    }
}

fn make_seg(x0: i32, y0: i32, x1: i32, y1: i32) -> Seg
    ensures { result ≡ seg_at x0 y0 x1 y1 }
{
    Seg {
        p0: Pt { x: x0, y: y0 },
        p1: Pt { x: x1, y: y1 },
    }
}

// The segment from (x0, y0) to (x1, y1), cut at the box: BOX, then COORD, else the clipped segment.
// A segment with both ends in a good box stays as given, and so does one without overlap: both are answered at once. Each answer returns by itself and in
// numbers, so that the compiler keeps them where they came in.
#[unsafe(no_mangle)]
pub extern "C" fn bp_clip(
    x0: i32,
    y0: i32,
    x1: i32,
    y1: i32,
    left: i32,
    right: i32,
    bottom: i32,
    top: i32,
) -> BpClipped
    ensures { result ≡ flat_clip (clipped (seg_at x0 y0 x1 y1) (box_at left right bottom top)) }
{
    let seg = make_seg(x0, y0, x1, y1);
    let bbox = make_box(left, right, bottom, top);
    if !BBox::is_good(bbox) {
        return refused(Refusal::Box);
    }
    let p0 = seg.p0;
    let p1 = seg.p1;
    if BBox::is_inside(bbox, p0) & BBox::is_inside(bbox, p1) {
        return kept(x0, y0, x1, y1);
    }
    if !(BBox::is_coord(p0) & BBox::is_coord(p1)) {
        return refused(Refusal::Coord);
    }
    if !BBox::overlaps(bbox, seg) {
        return kept(x0, y0, x1, y1);
    }
    match clip::clip(seg, bbox) {
        Ok(c) => {
            let cut = c.seg;
            let end0 = cut.p0;
            let end1 = cut.p1;
            let first = c.first;
            let second = c.second;
            return accepted(end0.x, end0.y, end1.x, end1.y, first, second);
        }
        Err(k) => {
            return refused(k);
        }
    }
}

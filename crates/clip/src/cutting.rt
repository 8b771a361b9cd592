// The cuts at the four edges (document 01, "Cutting a segment"; in the Rust: `intersect_at_x`, `intersect_at_y` and the body of `clip`). Those at y are
// those at x of the segment with x and y exchanged. A crossing is looked for only where one end is strictly outside and the other not: a line that both
// are beyond has none.
ghost use Rattle.std.specs.Prelude.{◌≡◌, pos, ◌<ℤ◌};
ghost use Rattle.std.specs.Int.Signed.{lt_z};
ghost use Rattle.whole.specs.Floor.{floor};
ghost use Rattle.clip.specs.Facts.{Coord, Good, Asked, swap_clipped};
ghost use Rattle.clip.specs.Cutting.{height, cross_at_x, met_at, replace, clip};
ghost use Rattle.clip.specs.Numbers.{cornered};

use crate::{ClippedSeg, Edge, Pt, Seg};

// n / d rounded down, below zero too, for d above zero. By hand and not `div_euclid`, which goes two ways by the sign of n: the edits of its rounding speak
// of the remainder.
fn floor_div(n: i64, d: i64) -> i64
    requires { pos 0 <ℤ d }
    ensures { result ≡ floor n d }
{
    let q = n / d;
    let r = n % d;
    if r < 0 { q - 1 } else { q }
}

// The y at x of the line from (x1, y1) to (x2, y2), rounded to the nearest whole number, halves up.
fn height_at(x1: i32, y1: i32, x2: i32, y2: i32, x: i32) -> i32
    requires { Asked x1 y1 x2 y2 x }
    ensures { result ≡ height x1 y1 x2 y2 x }
{
    let dy = y2 as i64 - y1 as i64;
    let den = x2 as i64 - x1 as i64;
    let num = dy * (x as i64 - x1 as i64);
    let q = floor_div(2 * num + den, 2 * den);
    (y1 as i64 + q) as i32
}

// Where the segment from p to q crosses the line at x, which lies between them, p to its left: at the rounded y, if that lies in [a, b].
// The segment's own y range need not be asked, since y lies in it.
fn intersect_at_x(p: Pt, q: Pt, x: i32, a: i32, b: i32) -> Option<i32>
    requires { Asked p.x p.y q.x q.y x }
    ensures { met_at x result ≡ cross_at_x p q x a b }
{
    let y = height_at(p.x, p.y, q.x, q.y, x);
    if (a <= y) & (y <= b) {
        return Some(y);
    }
    None
}

// The cut at a lower edge: the end strictly below it goes to the crossing, if there is one, and is said to have been moved by that edge. The end that stays
// is made anew of its numbers, so that the compiler keeps each number by itself.
fn cut_low(c: ClippedSeg, x: i32, a: i32, b: i32, lower: Edge) -> ClippedSeg
    requires coord { Coord c.seg.p0 }
    requires coord_2 { Coord c.seg.p1 }
    ensures { result ≡ replace lower (lt_z c.seg.p0.x x) (lt_z c.seg.p1.x x) c (cross_at_x c.seg.p0 c.seg.p1 x a b) }
{
    let Seg { p0, p1 } = c.seg;
    if p0.x < x {
        if p1.x < x {
            return c;
        }
        if let Some(y) = intersect_at_x(p0, p1, x, a, b) {
            return ClippedSeg {
                seg: Seg {
                    p0: Pt { x, y },
                    p1: Pt { x: p1.x, y: p1.y },
                },
                first: lower,
                ..c
            };
        }
        return c;
    }
    if p1.x < x {
        if let Some(y) = intersect_at_x(p1, p0, x, a, b) {
            return ClippedSeg {
                seg: Seg {
                    p0: Pt { x: p0.x, y: p0.y },
                    p1: Pt { x, y },
                },
                second: lower,
                ..c
            };
        }
    }
    c
}

// The cut at an upper edge. A body of its own, with both answers written out, as `cut_low` has: one for both misses the speed of a crossing clip.
fn cut_high(c: ClippedSeg, x: i32, a: i32, b: i32, upper: Edge) -> ClippedSeg
    requires coord { Coord c.seg.p0 }
    requires coord_2 { Coord c.seg.p1 }
    ensures { result ≡ replace upper (lt_z x c.seg.p0.x) (lt_z x c.seg.p1.x) c (cross_at_x c.seg.p0 c.seg.p1 x a b) }
{
    let Seg { p0, p1 } = c.seg;
    if x < p0.x {
        if x < p1.x {
            return c;
        }
        if let Some(y) = intersect_at_x(p1, p0, x, a, b) {
            return ClippedSeg {
                seg: Seg {
                    p0: Pt { x, y },
                    p1: Pt { x: p1.x, y: p1.y },
                },
                first: upper,
                ..c
            };
        }
        return c;
    }
    if x < p1.x {
        if let Some(y) = intersect_at_x(p0, p1, x, a, b) {
            return ClippedSeg {
                seg: Seg {
                    p0: Pt { x: p0.x, y: p0.y },
                    p1: Pt { x, y },
                },
                second: upper,
                ..c
            };
        }
    }
    c
}

// At y: x and y change roles. The names stay.
fn swap(c: ClippedSeg) -> ClippedSeg
    ensures { result ≡ swap_clipped c }
{
    let Seg { p0, p1 } = c.seg;
    ClippedSeg {
        seg: Seg {
            p0: Pt { x: p0.y, y: p0.x },
            p1: Pt { x: p1.y, y: p1.x },
        },
        first: c.first,
        second: c.second,
    }
}

// The four cuts, each on the segment as it then is; the box by its lower and its upper corner.
pub(crate) fn cut_all(p0: Pt, p1: Pt, low: Pt, high: Pt) -> ClippedSeg
    requires good { Good (cornered low high) }
    requires coord { Coord p0 }
    requires coord_2 { Coord p1 }
    ensures { result ≡ clip (cornered low high) (record { p0 = p0; p1 = p1 }) }
{
    let Pt { x: left, y: bottom } = low;
    let Pt { x: right, y: top } = high;
    let c = ClippedSeg {
        seg: Seg {
            p0: Pt { x: p0.x, y: p0.y },
            p1: Pt { x: p1.x, y: p1.y },
        },
        first: Edge::Stayed,
        second: Edge::Stayed,
    };
    let c1 = cut_low(c, left, bottom, top, Edge::XMin);
    let c2 = cut_high(c1, right, bottom, top, Edge::XMax);
    let c3 = cut_low(swap(c2), bottom, left, right, Edge::YMin);
    swap(cut_high(c3, top, left, right, Edge::YMax))
}

// Points as the encoder looks at them (document 01, "Adding a point"): a point that may be missing, within the limit, clamped to the box, equal to
// another one, between two others.
// Functions of points alone: they know no state and no words.
ghost use Rattle.std.specs.Prelude.{◌≡◌};
ghost use Rattle.encoder.specs.Points.{in_limit, in_limits, clamp_to, clamped, same_pt, strictly, between, last_of};

use clip::{BBox, Pt};

// Whether no stored point would be refused as COORD.
pub(crate) fn are_in_limit(l: Option<Pt>, m: Option<Pt>, n: Option<Pt>) -> bool
    ensures { result ≡ in_limits l m n }
{
    let a = is_in_limit(l);
    let b = is_in_limit(m);
    let c = is_in_limit(n);
    a & b & c
}

fn is_in_limit(m: Option<Pt>) -> bool
    ensures { result ≡ in_limit m }
{
    m.is_none_or(|p| BBox::is_coord(p))
}

// Not `z.clamp(lo, hi)`, which is for lo at most hi: the box is asked nothing here.
fn clamp(z: i32, lo: i32, hi: i32) -> i32
    ensures { result ≡ clamp_to lo hi z }
{
    if z < lo {
        return lo;
    }
    if hi < z {
        return hi;
    }
    z
}

// The point clamped to the box.
pub(crate) fn make_point(p: Pt, b: BBox) -> Pt
    ensures { result ≡ clamped b p }
{
    let x = clamp(p.x, b.x_min, b.x_max);
    let y = clamp(p.y, b.y_min, b.y_max);
    Pt { x, y }
}

// Whether two points are one.
pub(crate) fn is_same(p: Pt, q: Pt) -> bool
    ensures { result ≡ same_pt p q }
{
    (p.x == q.x) & (p.y == q.y)
}

fn is_strictly(a: i32, m: i32, b: i32) -> bool
    ensures { result ≡ strictly a m b }
{
    ((a < m) & (m < b)) | ((b < m) & (m < a))
}

// Whether m lies strictly between a and b, on one horizontal or vertical.
pub(crate) fn is_between(a: Pt, m: Pt, b: Pt) -> bool
    ensures { result ≡ between a m b }
{
    let up = is_strictly(a.y, m.y, b.y);
    let along = is_strictly(a.x, m.x, b.x);
    ((a.x == m.x) & (m.x == b.x) & up) | ((a.y == m.y) & (m.y == b.y) & along)
}

// The last point, (0, 0) at the start.
pub(crate) fn last_of(m: Option<Pt>) -> Pt
    ensures { result ≡ last_of m }
{
    m.unwrap_or(Pt { x: 0, y: 0 })
}

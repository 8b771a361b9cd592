// Points from satellite receivers (document 02, request (x)): two doubles, mapped by six others and put on the grid.
// In the default floating-point environment: to nearest, ties to even, subnormals kept. No product is fused with a sum.
#![tactic(auto)]

ghost use Rattle.std.specs.Prelude.{◌≡◌, ◌-◌, ◌%◌, ◌≤◌, T, length};
ghost use Rattle.promise.specs.Answers.{Gives};
ghost use Rattle.clip.specs.Domain.{within};
ghost use Rattle.affine.specs.Grid.{whole_of, grid_of};
ghost use Rattle.affine.specs.Mapping.{along, surveyed, said_mapped, mapped, mapped_all};
ghost use Rattle.affine.specs.Facts.{Small, magnitude, stepped, is_near, MapsPlain};

use clip::{BBox, Pt};
use number::smaller;
use refusal::Refusal;

// The grid's x is a·x + b·y + c, its y is d·x + e·y + f.
#[derive(Clone, Copy)]
pub struct Affine {
    pub a: f64,
    pub b: f64,
    pub c: f64,
    pub d: f64,
    pub e: f64,
    pub f: f64,
}

// a·x + b·y + c: each product rounded, then the sums, from the left.
fn along(a: f64, b: f64, c: f64, x: f64, y: f64) -> f64
    ensures { result ≡ along a b c x y }
{
    let ax = a * x;
    let by = b * y;
    let sum = ax + by;
    sum + c
}

// Whether the nearest whole number lies within the limit; not so for a NaN and an infinity.
fn is_on_grid(x: f64) -> bool
    ensures { result ≡ within (whole_of x) }
{
    let near = x < 1073741823.5;
    let far = -1073741823.5 < x;
    near & far
}

// ---- one number
// Twice a double is exact; what is left of it without its fraction is halved, upwards.
fn magnitude_of(x: f64) -> i32
    requires { Small x }
    ensures { result ≡ magnitude x }
{
    let twice = x + x;
    let whole = std::num::truncating_f64_to_u64(twice);
    ((whole + 1) / 2) as i32
}

// The nearest whole number, halves away from zero.
fn whole_of(x: f64) -> i32
    requires { T (within (whole_of x)) }
    ensures { result ≡ whole_of x }
{
    if x < 0.0 {
        let opposite = -x;
        return -magnitude_of(opposite);
    }
    magnitude_of(x)
}

// The grid's number of a double: where it has none, one beyond the limit, which every call refuses as COORD.
fn grid_of(x: f64) -> i32
    ensures { result ≡ grid_of x }
{
    if is_on_grid(x) {
        return whole_of(x);
    }
    BBox::LIMIT + 1
}

// ---- many numbers
// A whole number next to a double within the limit: the sum has no digits behind the point, and taking the number off it again is exact.
fn stepped(x: f64) -> f64
    ensures { result ≡ stepped x }
{
    let sum = x + 6755399441055744.0;
    sum - 6755399441055744.0
}

// Whether a double lies nearer than a half to t: then t, if it is a whole number, is the nearest, and no tie is to be broken.
fn is_near(x: f64, t: f64) -> bool
    ensures { result ≡ is_near x t }
{
    let off = x - t;
    let below = off < 0.5;
    let above = -0.5 < off;
    below & above
}

// Maps the points from the number at `from` on and lays them in `out`, up to the first with a coordinate that is no plain one: beyond the limit, or at a
// tie. The two coordinates go through every step side by side, so that the machine takes both at once.
fn map_plain(t: Affine, points: &[f64], from: usize, to: usize, out: &mut [i32]) -> usize
    requires from_le_to { from ≤ to }
    requires from_value { (to - from) % 2 ≡ 0 }
    requires to_in_bounds { to ≤ length points.now }
    requires to_in_bounds_2 { to ≤ length out.old }
    ensures { MapsPlain t points.now from to out.old result out.new }
{
    // A `while`: a point takes two numbers of each list, and where it ends is the answer.
    let mut i = from;
    while i < to {
        let x = points[i];
        let y = points[i + 1];
        let u = along(t.a, t.b, t.c, x, y);
        let v = along(t.d, t.e, t.f, x, y);
        let s = stepped(u);
        let w = stepped(v);
        let on_grid = is_on_grid(u) & is_on_grid(v);
        let near = is_near(u, s) & is_near(v, w);
        if !(on_grid & near) {
            return i;
        }
        out[i] = s as i32;
        out[i + 1] = w as i32;
        i += 2;
    }
    i
}

impl Affine {
    // A point put on the grid, with a number beyond the limit for a coordinate that has none there.
    pub fn grid_point(self, x: f64, y: f64) -> Pt
        ensures { result ≡ surveyed self x y }
    {
        let u = along(self.a, self.b, self.c, x, y);
        let v = along(self.d, self.e, self.f, x, y);
        Pt {
            x: grid_of(u),
            y: grid_of(v),
        }
    }

    // The same, or COORD where a coordinate is not finite or its whole number lies beyond the limit.
    pub fn map_point(self, x: f64, y: f64) -> Result<Pt, Refusal>
        ensures { said_mapped result ≡ mapped self x y }
    {
        let p = self.grid_point(x, y);
        if BBox::is_coord(p) {
            return Ok(p);
        }
        Err(Refusal::Coord)
    }

    // Lays the grid points of a list at the front of `out`, as many as both hold, and answers how many.
    pub fn map_points(self, points: &[f64], out: &mut [i32]) -> usize
        ensures { Gives (mapped_all self points.now out.old) result out.new }
    {
        let n = smaller(points.len() / 2, out.len() / 2);
        let end = 2 * n;
        // A `while`: each turn goes on from where a run ended.
        let mut i = 0;
        while i < end {
            i = map_plain(self, points, i, end, out);
            if i < end {
                let p = self.grid_point(points[i], points[i + 1]);
                out[i] = p.x;
                out[i + 1] = p.y;
                i += 2;
            }
        }
        n
    }
}

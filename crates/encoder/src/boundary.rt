// The boundary points: the ends of the raw segment that the clip moved.
ghost use Rattle.std.specs.Prelude.{◌≡◌, true};
ghost use Rattle.clip.specs.Answer.{are_coords};
ghost use Rattle.clip.specs.Cutting.{clip};
ghost use Rattle.clip.specs.Domain.{is_coord, is_good};
ghost use Rattle.encoder.specs.Adding.{boundary, edges};
ghost use Rattle.encoder.specs.Boundary.{outside, moved_by, ends_in, BroughtBy};
ghost use Rattle.encoder.specs.Drafts.{state_in};
ghost use Rattle.encoder.specs.Points.{in_limit};

use crate::draft::Draft;
use crate::points::is_same;
use clip::{BBox, ClippedSeg, Pt, Seg};
use words::geometry::Geometry;

// The ends of a clipped segment that have moved.
#[derive(Clone, Copy)]
pub(crate) struct Ends {
    pub end0: Option<Pt>,
    pub end1: Option<Pt>,
}

// The raw segment cut at the box, and the edges. The clip of a good box and two coordinates is never refused.
fn clip_named(raw: Seg, bbox: BBox) -> ClippedSeg
    requires bbox_value { is_good bbox ≡ true }
    requires raw_value { are_coords raw ≡ true }
    ensures { result ≡ clip bbox raw }
{
    match clip::clip_between(raw.p0, raw.p1, bbox) {
        Ok(c) => c,
        Err(_) => clip::stay(raw),
    }
}

// The same without the edges, for the loop.
pub(crate) fn clip_raw(raw: Seg, bbox: BBox) -> Seg
    requires bbox_value { is_good bbox ≡ true }
    requires raw_value { are_coords raw ≡ true }
    ensures { result ≡ (clip bbox raw).seg }
{
    clip_named(raw, bbox).seg
}

// Whether a point lies strictly outside an edge.
pub(crate) fn is_outside(p: Pt, b: BBox) -> bool
    ensures { result ≡ outside b p }
{
    (p.x < b.x_min) | (b.x_max < p.x) | (p.y < b.y_min) | (b.y_max < p.y)
}

// The ends of the segment from raw to p, once it is cut, by the points.
pub(crate) fn moved_ends(raw: Pt, p: Pt, cut: Seg) -> Ends
    ensures { result ≡ moved_by raw p cut }
{
    let c0 = cut.p0;
    let c1 = cut.p1;
    let same0 = is_same(raw, c0);
    let same1 = is_same(p, c1);
    Ends {
        end0: (!same0).then_some(c0),
        end1: (!same1).then_some(c1),
    }
}

// The ends of a cut segment, by the edges: one that an edge is named for has moved.
pub(crate) fn ends_of(cut: ClippedSeg) -> Ends
    ensures { result ≡ ends_in cut }
{
    Ends {
        end0: cut.first.is_moved().then_some(cut.seg.p0),
        end1: cut.second.is_moved().then_some(cut.seg.p1),
    }
}

// The segment that p ends, cut: the boundary points that p brings, in order, and the edges. A segment inside the box is not cut, and need not be clipped
// to see it.
pub(crate) fn add_boundary_points(d: Draft, p: Pt) -> ClippedSeg
    requires bbox_value { is_good d.bbox ≡ true }
    requires xy_end_value { in_limit (state_in d).xy_end ≡ true }
    requires p_value { is_coord p ≡ true }
    ensures { BroughtBy d.bbox (boundary (state_in d) p) (edges (state_in d) p) result }
{
    let raw = d.pen.raw;
    let out0 = is_outside(raw, d.bbox);
    let out1 = is_outside(p, d.bbox);
    if (d.kind != Geometry::POINT) & d.joins & (out0 | out1) {
        return clip_named(Seg { p0: raw, p1: p }, d.bbox);
    }
    clip::stay(Seg { p0: p, p1: p })
}

// A whole job with its edges, from C: as a whole job, and in a second lent list two numbers for each raw point, what became of the ends of its segment.
ghost use Rattle.promise.specs.Lent.{mutable};
ghost use Rattle.edge_job.specs.EdgeJobs.{Writes};
ghost use Rattle.brinepost.specs.Works.{edge_job_from};

use crate::work::BpJob;
use clip::BBox;

// JOB, KIND, BOX, then the calls; at the first refused one its number and the accepted points, both lists as the accepted calls left them.
#[unsafe(no_mangle)]
pub extern "C" fn bp_encode_job_edges(
    kind: u32,
    left: i32,
    right: i32,
    bottom: i32,
    top: i32,
    points: &[i32],
    ends: &[u32],
    words: &mut [u32],
    edges: &mut [u32],
) -> BpJob
    ensures { Writes (edge_job_from kind left right bottom top points.now ends.now) result (mutable words) (mutable edges) }
{
    let bbox = BBox {
        x_min: left,
        x_max: right,
        y_min: bottom,
        y_max: top,
    };
    let r = edge_job::encode(kind, bbox, points, ends, words, edges);
    crate::work::answered(r, points.len() / 2)
}

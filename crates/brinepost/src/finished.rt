// A whole job with its state, from C: as a whole job, and the state behind its last call, its counts among it.
ghost use Rattle.std.specs.Prelude.{◌≡◌};
ghost use Rattle.promise.specs.Answers.{Gives};
ghost use Rattle.encoder.specs.Jobs.{outcome_of};
ghost use Rattle.brinepost.specs.Works.{flat_finished, finished_from};

use crate::state::BpEncoder;
use clip::BBox;
use encoder::whole_job::Course;

#[repr(C)]
#[derive(Clone, Copy)]
pub struct BpFinished {
    pub refusal: u32,
    pub points: usize, // how many were accepted
    pub state: BpEncoder,
}

// Of a job with so many points. A refused one gives no state, as a refused `new` gives none.
fn answered(r: Course, points: usize) -> BpFinished
    ensures { result ≡ flat_finished points (outcome_of points r) }
{
    match r {
        Ok(s) => BpFinished {
            refusal: 0,
            points: points,
            state: crate::state::state_to(s),
        },
        Err(e) => BpFinished {
            refusal: refusal::number(e.refusal),
            points: e.kept,
            state: crate::state::no_state(),
        },
    }
}

// JOB, KIND, BOX, then the calls; at the first refused one its number and the accepted points, the words as the accepted calls left them.
#[unsafe(no_mangle)]
pub extern "C" fn bp_encode_job_state(
    kind: u32,
    left: i32,
    right: i32,
    bottom: i32,
    top: i32,
    points: &[i32],
    ends: &[u32],
    words: &mut [u32],
) -> BpFinished
    ensures { Gives (finished_from kind left right bottom top points.now ends.now words.old) result words.new }
{
    let bbox = BBox {
        x_min: left,
        x_max: right,
        y_min: bottom,
        y_max: top,
    };
    let r = encoder::whole_job::finish(kind, bbox, points, ends, words);
    answered(r, points.len() / 2)
}

// A whole job, from C: a kind, a box, points and part ends go in, the words are laid in the lent list.
ghost use Rattle.std.specs.Prelude.{◌≡◌};
ghost use Rattle.promise.specs.Answers.{Gives};
ghost use Rattle.encoder.specs.Jobs.{said_encoded};
ghost use Rattle.brinepost.specs.Works.{flat_job, job_from};

use clip::BBox;
use encoder::whole_job::Encoded;

#[repr(C)]
#[derive(Clone, Copy)]
pub struct BpJob {
    pub refusal: u32,
    pub points: usize, // how many were accepted
    pub words: usize, // how many were used
}

// Of a job with so many points.
pub(crate) fn answered(r: Encoded, points: usize) -> BpJob
    ensures { result ≡ flat_job points (said_encoded r) }
{
    match r {
        Ok(n) => BpJob {
            refusal: 0,
            points: points,
            words: n,
        },
        Err(e) => BpJob {
            refusal: refusal::number(e.refusal),
            points: e.kept,
            words: 0,
        },
    }
}

// JOB, KIND, BOX, then the calls; at the first refused one its number and the accepted points, the words as the accepted calls left them.
#[unsafe(no_mangle)]
pub extern "C" fn bp_encode_job(
    kind: u32,
    left: i32,
    right: i32,
    bottom: i32,
    top: i32,
    points: &[i32],
    ends: &[u32],
    words: &mut [u32],
) -> BpJob
    ensures { Gives (job_from kind left right bottom top points.now ends.now words.old) result words.new }
{
    let bbox = BBox {
        x_min: left,
        x_max: right,
        y_min: bottom,
        y_max: top,
    };
    let r = encoder::whole_job::encode(kind, bbox, points, ends, words);
    answered(r, points.len() / 2)
}

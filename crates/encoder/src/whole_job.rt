// The whole job (document 01 module 7, without the file): a list of coordinates and a list of part ends to words, as the calls in order. STATE is asked
// by none of them: a fresh state is sound, and accepted calls keep it so.
ghost use Rattle.std.specs.Prelude.{◌≡◌, true, ◌*◌, ◌/◌, ◌≤◌, length};
ghost use Rattle.promise.specs.Answers.{Gives};
ghost use Rattle.encoder.specs.Answers.{said_started};
ghost use Rattle.encoder.specs.Calls.{part_calls};
ghost use Rattle.encoder.specs.States.{Sound};
ghost use Rattle.encoder.specs.Jobs.{points_of, is_job, is_job_of, ends_at, part, go, go_all, end_of, job_started, encoded_job, said_encoded, outcome_of, Finishes};

use crate::run::add_run;
use crate::{GeomEncoder, complete_valid};
use clip::BBox;
use refusal::{Refusal, Refused};

// How many words there are; or the refusal and how many points were accepted.
pub type Encoded = Result<usize, Refused<usize>>;

// The state that the calls went on to, its counts among it; or the refusal of one and how many points were accepted before it.
pub type Course = Result<GeomEncoder, Refused<usize>>;

// JOB of a list of coordinates of that length, whatever they are.
pub fn is_job_of(length: usize, ends: &[u32]) -> bool
    ensures { result ≡ is_job_of length ends.now }
{
    if ends.is_empty() {
        return false;
    }
    if length % 2 != 0 {
        return false;
    }
    let mut from = 0;
    for end in ends {
        let end = *end as usize;
        if end < from {
            return false;
        }
        from = end;
    }
    from == length / 2
}

pub fn is_job(points: &[i32], ends: &[u32]) -> bool
    ensures { result ≡ is_job points.now ends.now }
{
    is_job_of(points.len(), ends)
}

// Adds the points of one part and completes it. Put into `add_parts`, and that into both whole jobs: a job of a few points costs no calls between them.
#[inline(always)]
fn add_part(s: GeomEncoder, points: &[i32], from: usize, to: usize, words: &mut [u32]) -> Course
    requires from_le_to { from ≤ to }
    requires to_in_bounds { to ≤ length points.now / 2 }
    requires sound { Sound s (length words.old) }
    ensures { Gives (go (part_calls (part (points_of points.now) from to)) from s words.old) (outcome_of to result) words.new }
{
    let q = add_run(s, points, from, to, words)?;
    match complete_valid(q, words) {
        Ok((t, _)) => Ok(t),
        Err(e) => Err(Refused {
            refusal: e.refusal,
            kept: to,
        }),
    }
}

// Adds the parts one after the other.
#[inline(always)]
fn add_parts(s: GeomEncoder, points: &[i32], ends: &[u32], words: &mut [u32]) -> Course
    requires points_value { ends_at 0 ends.now (length points.now / 2) ≡ true }
    requires sound { Sound s (length words.old) }
    ensures { Gives (go_all points.now ends.now s words.old) (end_of points.now result) words.new }
{
    let mut q = s;
    let mut from = 0;
    for end in ends {
        let end = *end as usize;
        q = add_part(q, points, from, end, words)?;
        from = end;
    }
    Ok(q)
}

// A fresh encoder for the job: JOB, KIND, BOX.
fn start(kind: u32, bbox: BBox, points: &[i32], ends: &[u32]) -> Result<GeomEncoder, Refusal>
    ensures { said_started result ≡ job_started kind bbox points.now ends.now }
{
    if !is_job(points, ends) {
        return Err(Refusal::Job);
    }
    GeomEncoder::new(kind, bbox)
}

// JOB, KIND, BOX, then the calls; at the first refused one its number and the accepted points.
pub fn finish(kind: u32, bbox: BBox, points: &[i32], ends: &[u32], words: &mut [u32]) -> Course
    ensures { Finishes kind bbox points.now ends.now words.old result words.new }
{
    match start(kind, bbox, points, ends) {
        Ok(s) => add_parts(s, points, ends, words),
        Err(refusal) => Err(Refused { refusal, kept: 0 }),
    }
}

// The same job: how many words, or the refusal. It does not ask `finish`: with a caller of its own the compiler puts the calls into this one.
pub fn encode(kind: u32, bbox: BBox, points: &[i32], ends: &[u32], words: &mut [u32]) -> Encoded
    ensures { Gives (encoded_job kind bbox points.now ends.now words.old) (said_encoded result) words.new }
{
    let s = match start(kind, bbox, points, ends) {
        Ok(s) => s,
        Err(refusal) => return Err(Refused { refusal, kept: 0 }),
    };
    let t = add_parts(s, points, ends, words)?;
    Ok(t.used)
}

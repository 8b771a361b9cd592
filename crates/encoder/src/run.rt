// A run of points: stretches of plain ones, and each other by itself. A job adds the points of a part so; and a job may be given them piece by piece (document
// 02, request (x)), from whatever state. As a job, a run stops at the first refused point and keeps what the accepted ones wrote.
ghost use Rattle.std.specs.Prelude.{◌≡◌, ◌/◌, ◌≤◌, length};
ghost use Rattle.promise.specs.Answers.{Gives};
ghost use Rattle.encoder.specs.States.{Sound, is_placed};
ghost use Rattle.encoder.specs.Jobs.{points_of, part, go, add_calls, added_run, outcome_of, end_of};

use crate::stretch::add_stretch;
use crate::whole_job::Course;
use crate::{GeomEncoder, add_valid, is_valid};
use clip::Pt;
use refusal::Refused;

// Adds the points from `from` up to `to`: a stretch where the part has two points, and behind it one point by itself, which may be any. The one call of a
// stretch stands here, for whole jobs and for pieces of one, so that the compiler puts its loop in.
pub(crate) fn add_run(
    s: GeomEncoder,
    points: &[i32],
    from: usize,
    to: usize,
    words: &mut [u32],
) -> Course
    requires from_le_to { from ≤ to }
    requires to_in_bounds { to ≤ length points.now / 2 }
    requires sound { Sound s (length words.old) }
    ensures { Gives (go (add_calls (part (points_of points.now) from to)) from s words.old) (outcome_of to result) words.new }
{
    let mut q = s;
    let mut i = from;
    let mut tried = false;
    // No `for`: a stretch takes many points in one turn.
    while i < to {
        if (2 <= q.count) & !tried {
            let plain = add_stretch(q, points, i, to, words);
            q = plain.state;
            i = plain.reached;
            tried = true;
            continue;
        }
        let x = points[2 * i];
        let y = points[2 * i + 1];
        match add_valid(q, Pt { x, y }, words) {
            Ok((t, _)) => q = t,
            Err(e) => return Err(Refused {
                refusal: e.refusal,
                kept: i,
            }),
        }
        tried = false;
        i += 1;
    }
    Ok(q)
}

// The rule that STATE lacks, and that accepted calls keep of a fresh state: where there is a last point, the last command's place is below the used words.
fn is_placed(last: Option<Pt>, place: usize, used: usize) -> bool
    ensures { result ≡ is_placed last place used }
{
    last.is_none_or(|_| place < used)
}

// Each point by itself, from a state that may be bad: STATE is asked every time.
fn add_each(s: GeomEncoder, points: &[i32], words: &mut [u32]) -> Course
    ensures { Gives (added_run s points.now words.old) (end_of points.now result) words.new }
{
    let mut q = s;
    for i in 0..points.len() / 2 {
        let x = points[2 * i];
        let y = points[2 * i + 1];
        match q.add_point(x, y, words) {
            Ok((t, _)) => q = t,
            Err(e) => return Err(Refused {
                refusal: e.refusal,
                kept: i,
            }),
        }
    }
    Ok(q)
}

// Adds the points of a list one after the other. Where one is refused, its refusal, and how many of the list were accepted.
pub fn add_points(s: GeomEncoder, points: &[i32], words: &mut [u32]) -> Course
    ensures { Gives (added_run s points.now words.old) (end_of points.now result) words.new }
{
    if is_valid(s, words.len()) & is_placed(s.pt1, s.cmd_offset, s.used) {
        return add_run(s, points, 0, points.len() / 2, words);
    }
    add_each(s, points, words)
}

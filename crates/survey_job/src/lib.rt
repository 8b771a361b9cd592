// Surveyed points (document 02, request (x)), a step before the encoder: doubles go to the grid and then as grid points to its calls. The definitions are the
// encoder's own, of the grid points: STATE, COORD, ROOM, the accepted points and what a refused job leaves are what they are there.
#![tactic(auto)]

ghost use Rattle.std.specs.Prelude.{◌≡◌, true, ◌/◌, ◌≤◌, length};
ghost use Rattle.promise.specs.Answers.{Gives};
ghost use Rattle.encoder.specs.Adding.{added, edges};
ghost use Rattle.encoder.specs.Answers.{said_drawn, edges_of, passed};
ghost use Rattle.encoder.specs.Calls.{part_calls};
ghost use Rattle.encoder.specs.States.{Sound};
ghost use Rattle.encoder.specs.Jobs.{points_of, ends_at, part, go, go_all, outcome_of, end_of, said_encoded};
ghost use Rattle.affine.specs.Mapping.{surveyed, grids_of};
ghost use Rattle.survey_job.specs.Surveys.{surveyed_job};

use affine::Affine;
use clip::BBox;
use encoder::run::add_points;
use encoder::whole_job::{Course, Encoded, is_job_of};
use encoder::{Drawn, GeomEncoder};
use refusal::{Refusal, Refused};

// Adds a surveyed point to the words: STATE, COORD, ROOM.
pub fn add_surveyed(s: GeomEncoder, map: Affine, x: f64, y: f64, words: &mut [u32]) -> Drawn
    ensures answer { Gives (added s (surveyed map x y) words.old) (said_drawn result) words.new }
    ensures edges { edges_of result ≡ passed (added s (surveyed map x y) words.old).answer (edges s (surveyed map x y)) }
{
    let p = map.grid_point(x, y);
    s.add_point(p.x, p.y, words)
}

// Adds the points of one part and completes it: block by block they are put on the grid, and go to the encoder as a run.
fn add_part(
    s: GeomEncoder,
    map: Affine,
    points: &[f64],
    from: usize,
    to: usize,
    block: &mut [i32],
    words: &mut [u32],
) -> Course
    requires from_le_to { from ≤ to }
    requires to_in_bounds { to ≤ length points.now / 2 }
    requires in_bounds { 2 ≤ length block.old }
    requires sound { Sound s (length words.old) }
    ensures { Gives (go (part_calls (part (points_of (grids_of map points.now)) from to)) from s words.old) (outcome_of to result) words.new }
{
    let mut q = s;
    let mut i = from;
    // No `for`: each turn takes as many points as the block has room for.
    while i < to {
        let n = map.map_points(&points[2 * i..2 * to], block);
        match add_points(q, &block[..2 * n], words) {
            Ok(t) => q = t,
            Err(e) => return Err(Refused {
                refusal: e.refusal,
                kept: i + e.kept,
            }),
        }
        i += n;
    }
    match q.complete_geom(words) {
        Ok((t, _)) => Ok(t),
        Err(e) => Err(Refused {
            refusal: e.refusal,
            kept: to,
        }),
    }
}

// Adds the parts one after the other.
fn add_parts(
    s: GeomEncoder,
    map: Affine,
    points: &[f64],
    ends: &[u32],
    block: &mut [i32],
    words: &mut [u32],
) -> Course
    requires points_value { ends_at 0 ends.now (length points.now / 2) ≡ true }
    requires in_bounds { 2 ≤ length block.old }
    requires sound { Sound s (length words.old) }
    ensures { Gives (go_all (grids_of map points.now) ends.now s words.old) (end_of (grids_of map points.now) result) words.new }
{
    let mut q = s;
    let mut from = 0;
    for end in ends {
        let end = *end as usize;
        q = add_part(q, map, points, from, end, block, words)?;
        from = end;
    }
    Ok(q)
}

// The same with a list of its own for the grid points of a block.
fn add_in_blocks(
    s: GeomEncoder,
    map: Affine,
    points: &[f64],
    ends: &[u32],
    words: &mut [u32],
) -> Course
    requires points_value { ends_at 0 ends.now (length points.now / 2) ≡ true }
    requires sound { Sound s (length words.old) }
    ensures { Gives (go_all (grids_of map points.now) ends.now s words.old) (end_of (grids_of map points.now) result) words.new }
{
    let mut block = [0i32; 512];
    add_parts(s, map, points, ends, &mut block, words)
}

// JOB, KIND, BOX, then the calls; at the first refused one its number and the accepted points.
pub fn encode(
    kind: u32,
    bbox: BBox,
    map: Affine,
    points: &[f64],
    ends: &[u32],
    words: &mut [u32],
) -> Encoded
    ensures { Gives (surveyed_job kind bbox map points.now ends.now words.old) (said_encoded result) words.new }
{
    if !is_job_of(points.len(), ends) {
        return Err(Refused {
            refusal: Refusal::Job,
            kept: 0,
        });
    }
    match GeomEncoder::new(kind, bbox) {
        Err(refusal) => Err(Refused { refusal, kept: 0 }),
        Ok(s) => {
            let t = add_in_blocks(s, map, points, ends, words)?;
            Ok(t.used)
        }
    }
}

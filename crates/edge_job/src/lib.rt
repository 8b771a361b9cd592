// The whole job with its edges (document 02, request (v)): words as `encoder::whole_job` writes them, and in a second lent list two numbers for each raw
// point, what became of the ends of the segment that ends in it. By the encoder's calls in order; a job without edges does not pay for them.
#![tactic(auto)]

ghost use Rattle.std.specs.Prelude.{◌≡◌, true, ◌+◌, ◌*◌, ◌/◌, ◌≤◌, length};
ghost use Rattle.promise.specs.Lent.{mutable};
ghost use Rattle.promise.specs.Laid.{lay};
ghost use Rattle.encoder.specs.Adding.{point_at};
ghost use Rattle.encoder.specs.Answers.{said_drawn};
ghost use Rattle.encoder.specs.Calls.{part_calls};
ghost use Rattle.encoder.specs.Jobs.{points_of, ends_at, part, said_encoded};
ghost use Rattle.edge_job.specs.EdgeJobs.{entries, unroomed, edged, go, go_all, edge_job, outcome_of, end_of, Writes};

use clip::{BBox, Pt};
use encoder::whole_job::{Course, Encoded};
use encoder::{Drawn, Edges, GeomEncoder};
use refusal::{Refusal, Refused};

// Why a point is refused for which the list of edges has no entries: STATE, COORD, else ROOM. The list of words has that length.
fn refuse(s: GeomEncoder, p: Pt, length: usize) -> Refusal
    ensures { result ≡ unroomed s p length }
{
    if !encoder::is_valid(s, length) {
        return Refusal::State;
    }
    if !BBox::is_coord(p) {
        return Refusal::Coord;
    }
    Refusal::Room
}

// The entries of point i.
fn note(e: Edges, i: usize, edges: &mut [u32])
    requires { 2 * i + 2 ≤ length edges.old }
    ensures { edges.new ≡ lay (2 * i) (entries e) edges.old }
{
    edges[2 * i] = e.first.number();
    edges[2 * i + 1] = e.second.number();
}

// Adds point i to the words, and its edges to their list: STATE, COORD, ROOM.
fn add_point(
    s: GeomEncoder,
    x: i32,
    y: i32,
    i: usize,
    words: &mut [u32],
    edges: &mut [u32],
) -> Drawn
    ensures { Writes (edged s (point_at x y) i) (said_drawn result) (mutable words) (mutable edges) }
{
    if edges.len() / 2 <= i {
        return Err(Refused {
            refusal: refuse(s, Pt { x, y }, words.len()),
            kept: s,
        });
    }
    let (t, e) = s.add_point(x, y, words)?;
    note(e, i, edges);
    Ok((t, e))
}

// Adds the points of one part and completes it.
fn add_part(
    s: GeomEncoder,
    points: &[i32],
    from: usize,
    to: usize,
    words: &mut [u32],
    edges: &mut [u32],
) -> Course
    requires from_le_to { from ≤ to }
    requires to_in_bounds { to ≤ length points.now / 2 }
    ensures { Writes (go (part_calls (part (points_of points.now) from to)) from s) (outcome_of to result) (mutable words) (mutable edges) }
{
    let mut q = s;
    for i in from..to {
        let x = points[2 * i];
        let y = points[2 * i + 1];
        match add_point(q, x, y, i, words, edges) {
            Ok((t, _)) => q = t,
            Err(e) => return Err(Refused {
                refusal: e.refusal,
                kept: i,
            }),
        }
    }
    match q.complete_geom(words) {
        Ok((t, _)) => Ok(t),
        Err(e) => Err(Refused {
            refusal: e.refusal,
            kept: to,
        }),
    }
}

// Adds the parts one after the other.
fn add_parts(
    s: GeomEncoder,
    points: &[i32],
    ends: &[u32],
    words: &mut [u32],
    edges: &mut [u32],
) -> Course
    requires { ends_at 0 ends.now (length points.now / 2) ≡ true }
    ensures { Writes (go_all points.now ends.now s) (end_of points.now result) (mutable words) (mutable edges) }
{
    let mut q = s;
    let mut from = 0;
    for end in ends {
        let end = *end as usize;
        q = add_part(q, points, from, end, words, edges)?;
        from = end;
    }
    Ok(q)
}

// JOB, KIND, BOX, then the calls; at the first refused one its number and the accepted points.
pub fn encode(
    kind: u32,
    bbox: BBox,
    points: &[i32],
    ends: &[u32],
    words: &mut [u32],
    edges: &mut [u32],
) -> Encoded
    ensures { Writes (edge_job kind bbox points.now ends.now) (said_encoded result) (mutable words) (mutable edges) }
{
    if !encoder::whole_job::is_job(points, ends) {
        return Err(Refused {
            refusal: Refusal::Job,
            kept: 0,
        });
    }
    match GeomEncoder::new(kind, bbox) {
        Err(refusal) => Err(Refused { refusal, kept: 0 }),
        Ok(s) => Ok(add_parts(s, points, ends, words, edges)?.used),
    }
}

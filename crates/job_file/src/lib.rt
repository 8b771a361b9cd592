// A job file's numbers to words (RULES 11), to words and edges, or to the state behind the last call: the contents table is taken apart, and the job encoded.
#![tactic(auto)]

ghost use Rattle.std.specs.Prelude.{◌≡◌, map, ◌≤◌, length};
ghost use Rattle.promise.specs.Lent.{mutable};
ghost use Rattle.promise.specs.Answers.{Gives};
ghost use Rattle.promise.specs.Laid.{lay};
ghost use Rattle.whole.specs.Twos.{signed32};
ghost use Rattle.encoder.specs.Jobs.{said_encoded};
ghost use Rattle.edge_job.specs.EdgeJobs.{Writes};
ghost use Rattle.job_file.specs.JobFile.{box_of, body_encoded, job_file, body_of, point_count, body_edges, job_file_edges};
ghost use Rattle.job_file.specs.JobFile.{body_finished, body_end, job_file_finished, file_end};

use clip::BBox;
use encoder::whole_job::{Course, Encoded};
use number::{signed32, wide};
use number_file::File;
use refusal::{Refusal, Refused};

pub mod survey;

// Lays numbers, read as signed ones, at the front of `out`.
fn lay_signed(numbers: &[u32], out: &mut [i32])
    requires { length numbers.now ≤ length out.old }
    ensures { out.new ≡ lay 0 (map signed32 numbers.now) out.old }
{
    for (i, number) in numbers.iter().enumerate() {
        out[i] = signed32(*number);
    }
}

// The box of a file's contents table.
fn box_of(file: &[u32]) -> BBox
    requires { 6 ≤ length file.now }
    ensures { result ≡ box_of file.now }
{
    BBox {
        x_min: signed32(file[1]),
        x_max: signed32(file[2]),
        y_min: signed32(file[3]),
        y_max: signed32(file[4]),
    }
}

// Where a file's points begin. The contents table is kind, box, part count, each part's end; a file that is longer than may be, or too short for its table,
// has no body.
fn body_of(file: &[u32]) -> Option<usize>
    ensures { result ≡ body_of file.now }
{
    let end = file.len();
    if File::MAX_BYTES / 4 < end {
        return None;
    }
    if end < 6 {
        return None;
    }
    let parts = wide(file[5]);
    if end - 6 < parts {
        return None;
    }
    let body = 6 + parts;
    Some(body)
}

// How many raw points a file has.
pub fn point_count(file: &[u32]) -> usize
    ensures { result ≡ point_count file.now }
{
    match body_of(file) {
        Some(body) => (file.len() - body) / 2,
        None => 0,
    }
}

// The job of a file whose points begin at `body`; they are laid in `points` as signed numbers.
fn encode_body(file: &[u32], body: usize, points: &mut [i32], words: &mut [u32]) -> Encoded
    requires le_body { 6 ≤ body }
    requires body_in_bounds { body ≤ length file.now }
    requires file_in_bounds { length file.now ≤ length points.old }
    ensures { Gives (body_encoded file.now body words.old) (said_encoded result) words.new }
{
    let n = file.len() - body;
    lay_signed(&file[body..], points);
    encoder::whole_job::encode(file[0], box_of(file), &points[..n], &file[6..body], words)
}

// The job that a file's numbers are. A file has fewer points than the own list holds.
pub fn encode_file(file: &[u32], words: &mut [u32]) -> Encoded
    ensures { Gives (job_file file.now words.old) (said_encoded result) words.new }
{
    let Some(body) = body_of(file) else {
        return Err(Refused {
            refusal: Refusal::Job,
            kept: 0,
        });
    };
    let mut points = [0i32; 16384];
    encode_body(file, body, &mut points, words)
}

// As `encode_body`, with the edges of each raw point.
fn encode_body_edges(
    file: &[u32],
    body: usize,
    points: &mut [i32],
    words: &mut [u32],
    edges: &mut [u32],
) -> Encoded
    requires le_body { 6 ≤ body }
    requires body_in_bounds { body ≤ length file.now }
    requires file_in_bounds { length file.now ≤ length points.old }
    ensures { Writes (body_edges file.now body) (said_encoded result) (mutable words) (mutable edges) }
{
    let n = file.len() - body;
    lay_signed(&file[body..], points);
    edge_job::encode(
        file[0],
        box_of(file),
        &points[..n],
        &file[6..body],
        words,
        edges,
    )
}

// As `encode_file`, with the edges of each raw point.
pub fn encode_file_edges(file: &[u32], words: &mut [u32], edges: &mut [u32]) -> Encoded
    ensures { Writes (job_file_edges file.now) (said_encoded result) (mutable words) (mutable edges) }
{
    let Some(body) = body_of(file) else {
        return Err(Refused {
            refusal: Refusal::Job,
            kept: 0,
        });
    };
    let mut points = [0i32; 16384];
    encode_body_edges(file, body, &mut points, words, edges)
}

// As `encode_body`, with the state behind the last call, its counts among it.
fn finish_body(file: &[u32], body: usize, points: &mut [i32], words: &mut [u32]) -> Course
    requires le_body { 6 ≤ body }
    requires body_in_bounds { body ≤ length file.now }
    requires file_in_bounds { length file.now ≤ length points.old }
    ensures { Gives (body_finished file.now body words.old) (body_end file.now body result) words.new }
{
    let n = file.len() - body;
    lay_signed(&file[body..], points);
    encoder::whole_job::finish(file[0], box_of(file), &points[..n], &file[6..body], words)
}

// As `encode_file`, with the state behind the last call, its counts among it.
pub fn finish_file(file: &[u32], words: &mut [u32]) -> Course
    ensures { Gives (job_file_finished file.now words.old) (file_end file.now result) words.new }
{
    let Some(body) = body_of(file) else {
        return Err(Refused {
            refusal: Refusal::Job,
            kept: 0,
        });
    };
    let mut points = [0i32; 16384];
    finish_body(file, body, &mut points, words)
}

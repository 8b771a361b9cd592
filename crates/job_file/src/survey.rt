// A survey file's numbers to words (RULES 11; document 02, request (x)): as a job file to the last part's end, then six doubles, then the points, x and y by
// turns. A double is two numbers, the low half of its bits first.
ghost use Rattle.std.specs.Prelude.{◌≡◌, ◌+◌, ◌*◌, ◌/◌, ◌≤◌, length};
ghost use Rattle.std.specs.Float.{binary64};
ghost use Rattle.std.specs.Float.Ieee.{of_bits};
ghost use Rattle.promise.specs.Answers.{Gives};
ghost use Rattle.promise.specs.Laid.{lay};
ghost use Rattle.encoder.specs.Jobs.{said_encoded};
ghost use Rattle.job_file.specs.SurveyFile.{doubles_of, body_surveyed, survey_file};

use crate::{body_of, box_of};
use affine::Affine;
use encoder::whole_job::Encoded;
use number::of_halves;
use refusal::{Refusal, Refused};

// The double of a bit pattern. `from_bits` has no meaning at a NaN's, and every NaN is the same here.
fn double_of(bits: u64) -> f64
    ensures { result ≡ of_bits binary64 bits }
{
    if 9_218_868_437_227_405_312 < bits % 9_223_372_036_854_775_808 {
        return 0.0 / 0.0;
    }
    f64::from_bits(bits)
}

// Lays all the doubles of the numbers at the front of `out`.
fn lay_doubles(numbers: &[u32], out: &mut [f64])
    requires { length numbers.now / 2 ≤ length out.old }
    ensures { out.new ≡ lay 0 (doubles_of numbers.now) out.old }
{
    for i in 0..numbers.len() / 2 {
        out[i] = double_of(of_halves(numbers[2 * i], numbers[2 * i + 1]));
    }
}

// The job of a file whose doubles begin at `body`; they are laid in `doubles`, the first six are the map.
fn encode_body(file: &[u32], body: usize, doubles: &mut [f64], words: &mut [u32]) -> Encoded
    requires le_body { 6 ≤ body }
    requires body_in_bounds { body + 12 ≤ length file.now }
    requires file_len_bound { length file.now ≤ 2 * length doubles.old }
    ensures { Gives (body_surveyed file.now body words.old) (said_encoded result) words.new }
{
    let n = (file.len() - body) / 2;
    lay_doubles(&file[body..], doubles);
    let map = Affine {
        a: doubles[0],
        b: doubles[1],
        c: doubles[2],
        d: doubles[3],
        e: doubles[4],
        f: doubles[5],
    };
    survey_job::encode(
        file[0],
        box_of(file),
        map,
        &doubles[6..n],
        &file[6..body],
        words,
    )
}

// The job that a file's numbers are: JOB for a file that its table, the map or the last point does not fill. It has fewer doubles than the own list holds.
pub fn encode_survey(file: &[u32], words: &mut [u32]) -> Encoded
    ensures { Gives (survey_file file.now words.old) (said_encoded result) words.new }
{
    let Some(body) = body_of(file) else {
        return Err(Refused {
            refusal: Refusal::Job,
            kept: 0,
        });
    };
    let rest = file.len() - body;
    if rest < 12 {
        return Err(Refused {
            refusal: Refusal::Job,
            kept: 0,
        });
    }
    if rest % 4 != 0 {
        return Err(Refused {
            refusal: Refusal::Job,
            kept: 0,
        });
    }
    let mut doubles = [0.0; 8192];
    encode_body(file, body, &mut doubles, words)
}

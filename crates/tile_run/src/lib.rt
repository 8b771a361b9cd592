// A whole tile script, run operation after operation. Its outcomes, 0 or a refusal's number, go into a lent list; the tile's bytes are the used part of
// the last list.
#![tactic(auto)]

pub mod hand; // what a script has at hand, and a layer's calls on it
pub mod performing; // what a script works on, and one operation

ghost use Rattle.std.specs.Prelude.{◌≡◌, ◌<◌, length};
ghost use Rattle.promise.specs.Lent.{mutable};
ghost use Rattle.tile_run.specs.Operations.{said_performed};
ghost use Rattle.tile_run.specs.Lending.{Steps, RunsFrom, Runs};

use crate::performing::{Performed, Work};
use refusal::Refusal;
use tile::Tile;

fn outcome(p: Performed) -> u32
    ensures { result ≡ (said_performed p).number }
{
    match p {
        Ok(_) => 0,
        Err(e) => refusal::number(e.refusal),
    }
}

fn after(p: Performed) -> Work
    ensures { result ≡ (said_performed p).values }
{
    match p {
        Ok(w) => w,
        Err(e) => e.kept,
    }
}

// The operation that begins at a place, read and performed: its outcome, what there is after it and where the next one begins; or nothing that can be
// read.
pub fn advance(
    at: usize,
    w: Work,
    bytes: &[u8],
    numbers: &[u32],
    keys: &mut [u32],
    values: &mut [u32],
    texts: &mut [u8],
    features: &mut [u32],
    names: &mut [u32],
    out: &mut [u8],
) -> Option<(u32, Work, usize)>
    ensures { Steps at w result bytes numbers (mutable keys) (mutable values) (mutable texts) (mutable features) (mutable names) (mutable out) }
{
    let (op, next) = script::read_op(numbers, at)?;
    let p = performing::perform(
        op, w, bytes, numbers, keys, values, texts, features, names, out,
    );
    Some((outcome(p), after(p), next))
}

// From the first operation on, with what there is then: how many outcomes there are, and how many bytes the tile has.
fn run_from(
    start: Work,
    bytes: &[u8],
    numbers: &[u32],
    outcomes: &mut [u32],
    keys: &mut [u32],
    values: &mut [u32],
    texts: &mut [u8],
    features: &mut [u32],
    names: &mut [u32],
    out: &mut [u8],
) -> (usize, usize)
    requires numbers_nonzero { 0 < length numbers.now }
    requires numbers_in_bounds { length numbers.now < length outcomes.old }
    ensures { RunsFrom start result bytes numbers (mutable outcomes) (mutable keys) (mutable values) (mutable texts) (mutable features) (mutable names) (mutable out) }
{
    let mut w = start;
    let mut at = 1;
    let mut n = 0;
    // Counted by hand: an operation takes as many numbers as it has, so the step differs from turn to turn.
    while at < numbers.len() {
        let Some((number, next, place)) = advance(
            at, w, bytes, numbers, keys, values, texts, features, names, out,
        ) else {
            outcomes[n] = 1;
            return (n + 1, w.tile.used);
        };
        outcomes[n] = number;
        w = next;
        at = place;
        n += 1;
    }
    (n, w.tile.used)
}

// Runs a script: how many outcomes there are, and how many bytes the tile has. Each operation takes a number at least, and the extent one, so one outcome
// more than there are numbers is room for all.
pub fn run(
    bytes: &[u8],
    numbers: &[u32],
    outcomes: &mut [u32],
    keys: &mut [u32],
    values: &mut [u32],
    texts: &mut [u8],
    features: &mut [u32],
    names: &mut [u32],
    out: &mut [u8],
) -> Result<(usize, usize), Refusal>
    ensures { Runs result bytes numbers (mutable outcomes) (mutable keys) (mutable values) (mutable texts) (mutable features) (mutable names) (mutable out) }
{
    if outcomes.len() <= numbers.len() {
        return Err(Refusal::Room);
    }
    if numbers.len() == 0 {
        outcomes[0] = 1;
        return Ok((1, 0));
    }
    let start = Work {
        tile: Tile::new(numbers[0]),
        hand: None,
    };
    Ok(run_from(
        start, bytes, numbers, outcomes, keys, values, texts, features, names, out,
    ))
}

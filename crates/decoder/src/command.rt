// A command word with the words behind it: what it asks for, or its fault.
ghost use Rattle.std.specs.Prelude.{◌≡◌, cond, ◌+◌, ◌<◌, eqb, length, drop, get_or};
ghost use Rattle.refusal.specs.declared.Refusal.TheVariants.{NoParams, CutParams};
ghost use Rattle.decoder.specs.Passing.{asked_of};

use crate::pen;
use crate::pen::Head;
use number::wide;
use refusal::{Fault, Refusal};

#[derive(Clone, Copy)]
pub(crate) enum Asked {
    // An id and its pairs, which are there.
    Draw(u32, usize),
    Close,
}

// The refusal of a command with so many words behind it, which are too few.
fn cut_of(follow: usize) -> Refusal
    ensures { result ≡ cond (eqb follow 0) NoParams CutParams }
{
    if follow == 0 {
        return Refusal::NoParams;
    }
    Refusal::CutParams
}

// COMMAND and COUNT have no place; a command that lacks parameters is told by its word's index.
pub(crate) fn ask(words: &[u32], at: usize) -> Result<Asked, Fault>
    requires { at < length words.now }
    ensures { result ≡ asked_of at (get_or words.now at 0) (drop (at + 1) words.now) }
{
    match pen::head_of(words[at]) {
        Head::Unknown => Err(Fault {
            refusal: Refusal::Command,
            place: 0,
        }),
        Head::Miscounted => Err(Fault {
            refusal: Refusal::Count,
            place: 0,
        }),
        Head::Close => Ok(Asked::Close),
        Head::Draw(id, count) => {
            let pairs = wide(count);
            let behind = at + 1;
            let follow = words.len() - behind;
            if follow < 2 * pairs {
                let refusal = cut_of(follow);
                return Err(Fault { refusal, place: at });
            }
            Ok(Asked::Draw(id, pairs))
        }
    }
}

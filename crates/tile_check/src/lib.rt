// Request (i) of document 02: whether some bytes are a good tile, and where the fault is in those that are not. Most tiles are good, so they are first read
// message by message, which costs little and tells good from not good; only where that fails the bytes go one by one through the automaton, for the place.
#![tactic(auto)]

ghost use Rattle.std.specs.Prelude.{◌≡◌};
ghost use Rattle.messages.specs.Tiles.{Answers};
ghost use Rattle.tile_check.specs.Checking.{checked};

use crate::messages_in::layers_in;
use refusal::{Fault, Refusal};
use scanning::place::place_of;

mod messages_in; // message by message, each to its end

// How many layers a good tile has, or where the fault is.
pub fn check(src: &[u8]) -> Result<usize, Fault>
    ensures { Answers src.now (checked src.now) result }
{
    let Some(n) = layers_in(src) else {
        return Err(Fault {
            refusal: Refusal::Wire,
            place: place_of(src),
        });
    };
    Ok(n)
}

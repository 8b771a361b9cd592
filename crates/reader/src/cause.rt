// What keeps a call from its answer, and the fault that it tells of it.
ghost use Rattle.messages.specs.Tiles.{Answers};
ghost use Rattle.reader.specs.Answers.{fault_of};

use crate::blame::blame;
use refusal::{Fault, Refusal};

#[derive(Clone, Copy)]
pub(crate) enum Cause {
    // The places are not in order, or lie beyond the bytes.
    Outside,
    // The list is too short.
    NoRoom,
    // A field cannot be read: the tile is asked whose fault it is.
    Broken,
}

// Each call ends in a `match` on what it met: with `map_err` and this in a closure its proof did not close.
pub(crate) fn fault_of(src: &[u8], cause: Cause) -> Fault
    ensures { Answers src.now (fault_of cause) result }
{
    match cause {
        Cause::Outside => Fault {
            refusal: Refusal::State,
            place: 0,
        },
        Cause::NoRoom => Fault {
            refusal: Refusal::Room,
            place: 0,
        },
        Cause::Broken => blame(src),
    }
}

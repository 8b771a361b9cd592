// Why a call could not read: the tile has a fault, or the place that was given is no field's.
ghost use Rattle.messages.specs.Tiles.{Answers};
ghost use Rattle.reader.specs.Answers.{blamed};

use refusal::{Fault, Refusal};
use tile_check::check;

pub(crate) fn blame(src: &[u8]) -> Fault
    ensures { Answers src.now blamed result }
{
    match check(src) {
        Ok(layers) => Fault {
            refusal: Refusal::State,
            place: 0,
        },
        Err(f) => f,
    }
}

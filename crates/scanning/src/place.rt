// The bytes of a tile, one after the other, until one of them leaves no state that something finishes.
ghost use Rattle.std.specs.Prelude.{◌≡◌};
ghost use Rattle.messages.specs.Tiles.{Answers};
ghost use Rattle.scanning.specs.Places.{place_in};

use crate::alive::is_alive;
use crate::state::turned;
use scan::{Phase, State, Where};

// The index of the first byte after which no continuation is a good tile; the length where the tile only ends too early, and where it is good.
pub fn place_of(src: &[u8]) -> usize
    ensures { Answers src.now (place_in src.now) result }
{
    let mut s = State::At(Where::Outside, Phase::Field);
    for (i, b) in src.iter().enumerate() {
        let t = turned(s, *b);
        if !is_alive(t) {
            return i;
        }
        s = t;
    }
    src.len()
}

// Whether a tile is good, from C.
ghost use Rattle.std.specs.Prelude.{◌≡◌};
ghost use Rattle.messages.specs.Tiles.{Answers};
ghost use Rattle.tile_check.specs.Checking.{checked};
ghost use Rattle.brinepost_reader.specs.Flat.{flat_opened, as_told};

use refusal::Fault;
use tile_check::check;

#[repr(C)]
#[derive(Clone, Copy)]
pub struct BpOpened {
    pub refusal: u32,
    pub place: usize,
    pub layers: usize,
}

fn answered(r: Result<usize, Fault>) -> BpOpened
    ensures { result ≡ flat_opened r }
{
    match r {
        Ok(layers) => BpOpened {
            refusal: 0,
            place: 0,
            layers,
        },
        Err(f) => BpOpened {
            refusal: refusal::number(f.refusal),
            place: f.place,
            layers: 0,
        },
    }
}

#[unsafe(no_mangle)]
pub extern "C" fn bp_open(bytes: &[u8]) -> BpOpened
    ensures { Answers bytes.now (as_told flat_opened (checked bytes.now)) result }
{
    let r = check(bytes);
    answered(r)
}

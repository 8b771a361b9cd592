// The next layer of a tile, from C.
ghost use Rattle.std.specs.Prelude.{◌≡◌};
ghost use Rattle.messages.specs.Tiles.{Answers};
ghost use Rattle.reader.specs.Answers.{next_layer};
ghost use Rattle.brinepost_reader.specs.Flat.{as_told, no_layer, flat_layer};

use reader::layers::{LayerHead, next_layer_at};
use refusal::Fault;

#[repr(C)]
#[derive(Clone, Copy)]
pub struct BpNextLayer {
    pub refusal: u32,
    // 1, or 0 where no layer follows or the call is refused.
    pub is_there: u32,
    pub place: usize,
    pub version: u32,
    pub extent: u32,
    pub name_start: usize,
    pub name_len: usize,
    pub keys: usize,
    pub values: usize,
    pub features: usize,
    pub start: usize,
    pub end: usize,
}

// No layer, refused or not.
fn without(refusal: u32, place: usize) -> BpNextLayer
    ensures { result ≡ no_layer refusal place }
{
    BpNextLayer {
        refusal,
        is_there: 0,
        place,
        version: 0,
        extent: 0,
        name_start: 0,
        name_len: 0,
        keys: 0,
        values: 0,
        features: 0,
        start: 0,
        end: 0,
    }
}

fn answered(r: Result<Option<LayerHead>, Fault>) -> BpNextLayer
    ensures { result ≡ flat_layer r }
{
    match r {
        Ok(Some(h)) => {
            let name = h.name;
            BpNextLayer {
                refusal: 0,
                is_there: 1,
                place: 0,
                version: h.version,
                extent: h.extent,
                name_start: name.start,
                name_len: name.len,
                keys: h.keys,
                values: h.values,
                features: h.features,
                start: h.start,
                end: h.end,
            }
        }
        Ok(None) => without(0, 0),
        Err(f) => without(refusal::number(f.refusal), f.place),
    }
}

#[unsafe(no_mangle)]
pub extern "C" fn bp_next_layer(bytes: &[u8], at: usize) -> BpNextLayer
    ensures { Answers bytes.now (as_told flat_layer (next_layer at bytes.now)) result }
{
    let r = next_layer_at(bytes, at);
    answered(r)
}

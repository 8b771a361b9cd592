// The next layer of a tile: what its own fields say, and how many keys, values and features it has. Their bodies are not looked into. A head begins with what
// MVT's schema says of a layer without fields, and takes its fields in one by one.
ghost use Rattle.std.specs.Prelude.{◌≡◌, ◌≤◌};
ghost use Rattle.messages.specs.declared.key.Kind.TheVariants.{Layer as layer};
ghost use Rattle.messages.specs.Fields.{fields_from};
ghost use Rattle.messages.specs.Meaning.{low32 as low32Of};
ghost use Rattle.messages.specs.Tiles.{Answers};
ghost use Rattle.reader.specs.Answers.{next_layer};
ghost use Rattle.reader.specs.Heads.{part_of};
ghost use Rattle.reader.specs.Steps.{layer_with, layer_in, layer_step, Taken};

use crate::cause::{Cause, fault_of};
use crate::find::first_of;
use messages::field::{FieldAt, field_at};
use messages::key::{Key, Kind};
use refusal::Fault;

// A part of the caller's bytes.
#[derive(Clone, Copy)]
pub struct Part {
    pub start: usize,
    pub len: usize,
}

#[derive(Clone, Copy)]
pub struct LayerHead {
    pub name: Part,
    pub version: u32,
    pub extent: u32,
    pub keys: usize,
    pub values: usize,
    pub features: usize,
    // Where its message stands; the next layer is behind it.
    pub start: usize,
    pub end: usize,
}

// MVT's defaults.
const DEFAULT_VERSION: u32 = 1;

const DEFAULT_EXTENT: u32 = 4096;

// One more than the largest number of 32 bits.
const WORDS: u64 = 4_294_967_296;

pub(crate) fn low32(n: u64) -> u32
    ensures { result ≡ low32Of n }
{
    (n % WORDS) as u32
}

pub(crate) fn part_of(f: FieldAt) -> Part
    requires { f.start ≤ f.end }
    ensures { result ≡ part_of f }
{
    Part {
        start: f.start,
        len: f.end - f.start,
    }
}

// The head with one more field: of a name, a version and an extent the last counts.
fn with(head: LayerHead, f: FieldAt) -> LayerHead
    requires { Taken head f }
    ensures { result ≡ layer_with head f }
{
    let mut h = head;
    if f.key == Key::LAYER_NAME {
        h.name = part_of(f);
        return h;
    }
    if f.key == Key::LAYER_VERSION {
        h.version = low32(f.value);
        return h;
    }
    if f.key == Key::LAYER_EXTENT {
        h.extent = low32(f.value);
        return h;
    }
    if f.key == Key::LAYER_KEY {
        h.keys += 1;
        return h;
    }
    if f.key == Key::LAYER_VALUE {
        h.values += 1;
        return h;
    }
    if f.key == Key::LAYER_FEATURE {
        h.features += 1;
        return h;
    }
    h
}

// What a layer's fields say, in bytes that end where its message does.
fn layer_in(f: FieldAt, src: &[u8]) -> Result<Option<LayerHead>, Cause>
    ensures { result ≡ layer_in f (fields_from layer f.start src.now) }
{
    let mut at = f.start;
    let mut h = LayerHead {
        name: Part { start: 0, len: 0 },
        version: DEFAULT_VERSION,
        extent: DEFAULT_EXTENT,
        keys: 0,
        values: 0,
        features: 0,
        start: f.start,
        end: f.end,
    };
    // A turn goes on where its field ends, so that no `for` says it plainer.
    while at < src.len() {
        let Some(g) = field_at(Kind::Layer, src, at) else {
            return Err(Cause::Broken);
        };
        h = with(h, g);
        at = g.end;
    }
    Ok(Some(h))
}

// The first layer from a place on.
fn layer_step(src: &[u8], at: usize) -> Result<Option<LayerHead>, Cause>
    ensures { result ≡ layer_step at src.now }
{
    if src.len() < at {
        return Err(Cause::Outside);
    }
    let Some(f) = first_of(Kind::Tile, Key::TILE_LAYER, src, at)? else {
        return Ok(None);
    };
    layer_in(f, &src[..f.end])
}

// The next layer of a tile, from a place on: 0, or where the layer before it ends. None where no layer follows.
pub fn next_layer_at(src: &[u8], at: usize) -> Result<Option<LayerHead>, Fault>
    ensures { Answers src.now (next_layer at src.now) result }
{
    match layer_step(src, at) {
        Ok(layer) => Ok(layer),
        Err(e) => Err(fault_of(src, e)),
    }
}

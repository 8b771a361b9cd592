// Messages one inside the other, each field by field to its end. Every byte of a key, a number or a packed list is looked at once, texts are passed over.
ghost use Rattle.std.specs.Prelude.{◌≡◌, ℕ, suc, ◌≤◌, length};
ghost use Rattle.messages.specs.declared.key.Kind.{Kind};
ghost use Rattle.messages.specs.declared.key.Kind.TheVariants.{Layer as layer, Feature as feature, Value as value};
ghost use Rattle.messages.specs.declared.key.Follows.TheVariants.{Wrong};
ghost use Rattle.messages.specs.Keys.{follows};
ghost use Rattle.messages.specs.Tiles.{nested, is_content};
ghost use Rattle.tile_check.specs.Layers.{layers_of};

use messages::field::{FieldAt, field_at};
use messages::key::{Key, Kind};
use messages::numbers::are_varints;

// A message inside a tile: its kind, and which of its fields are looked into.
trait Message {
    ghost KIND: { Kind };

    // So many messages stand one inside the other in it.
    ghost depth: { ℕ };

    const KIND: Kind;

    // Whether a field's body is what its key asks for. The bytes end where the field does.
    fn holds(f: FieldAt, src: &[u8]) -> bool
        requires { follows KIND f.key ≡ Wrong → ⊥ }
        ensures { result ≡ is_content (nested depth) (follows KIND f.key) f.start src.now };
}

// A value's fields hold nothing but numbers and any bytes.
#[derive(Clone, Copy)]
struct Value {}

impl Message for Value {
    ghost KIND = { value };

    ghost depth = { 0 };

    const KIND: Kind = Kind::Value;

    fn holds(f: FieldAt, src: &[u8]) -> bool {
        true
    }
}

// Tags and geometry are varints to their end where they are packed; one by one they are numbers as others.
#[derive(Clone, Copy)]
struct Feature {}

impl Message for Feature {
    ghost KIND = { feature };

    ghost depth = { 0 };

    const KIND: Kind = Kind::Feature;

    fn holds(f: FieldAt, src: &[u8]) -> bool {
        if (f.key == Key::FEATURE_TAGS) | (f.key == Key::FEATURE_GEOMETRY) {
            return are_varints(src, f.start);
        }
        true
    }
}

// Features and values are messages themselves.
#[derive(Clone, Copy)]
struct Layer {}

impl Message for Layer {
    ghost KIND = { layer };

    ghost depth = { 1 };

    const KIND: Kind = Kind::Layer;

    fn holds(f: FieldAt, src: &[u8]) -> bool {
        if f.key == Key::LAYER_FEATURE {
            return is_message::<Feature>(src, f.start);
        }
        if f.key == Key::LAYER_VALUE {
            return is_message::<Value>(src, f.start);
        }
        true
    }
}

// Whether the bytes from a place on are a message, exactly to their end. Each turn passes over a whole field, so it is a `while`.
fn is_message<M: Message>(src: &[u8], start: usize) -> bool
    ensures { result ≡ nested (suc M.depth) M.KIND start src.now }
{
    let mut at = start;
    while at < src.len() {
        let Some(f) = field_at(M::KIND, src, at) else {
            return false;
        };
        at = f.end;
        if !M::holds(f, &src[..at]) {
            return false;
        }
    }
    true
}

// How many layers a tile has, where it is good. It counts, as the messages inside need not; each turn passes over a whole field here too.
pub(crate) fn layers_in(src: &[u8]) -> Option<usize>
    ensures { result ≡ layers_of src.now }
{
    let mut at = 0;
    let mut n = 0;
    while at < src.len() {
        let f = field_at(Kind::Tile, src, at)?;
        at = f.end;
        if f.key == Key::TILE_LAYER {
            if !is_message::<Layer>(&src[..at], f.start) {
                return None;
            }
            n += 1;
        }
    }
    Some(n)
}

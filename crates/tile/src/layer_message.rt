// The bytes of a layer (MVT's message Layer), and the layer as a field of the tile. The size is reckoned first; what writes asks no more whether there is room.
ghost use Rattle.std.specs.Prelude.{◌≡◌, true, length};
ghost use Rattle.promise.specs.Answers.{Gives};
ghost use Rattle.promise.specs.Puts.{put};
ghost use Rattle.layer.specs.Held.{held_by, seen};
ghost use Rattle.layer.specs.State.{valid};
ghost use Rattle.tile.specs.Layers.{layer_bytes, layer_field};
ghost use Rattle.layer.specs.Lending.{entered};
ghost use Rattle.tile.specs.Lending.{given};
ghost use Rattle.tile.specs.Steps.{Writable, Sound, Reckoned};

use crate::feature_fields::{features_size, put_features};
use crate::key_fields::{keys_size, put_keys};
use crate::text::{put_text, text_size};
use crate::value_fields::{put_values, values_size};
use layer::Layer;
use wire::field::Field;
use wire::head::{put_varint_field, varint_field_size};

// MVT 2.1 is version 2 of a layer.
const VERSION: u64 = 2;

// The message's size, of the used parts.
fn message_size(s: Layer, keys: &[u32], values: &[u32], texts: &[u8], features: &[u32]) -> usize
    requires { Sound s (given keys.now values.now texts.now features.now) }
    ensures { result ≡ length (layer_bytes s (entered keys values texts features)) }
{
    let extent = s.extent;
    let name = text_size(Field::LayerName, texts, 0, s.name);
    let records = features_size(features);
    let table = keys_size(texts, keys);
    let contents = values_size(texts, values);
    let last = varint_field_size(Field::LayerExtent, extent as u64)
        + varint_field_size(Field::LayerVersion, VERSION);
    name + records + table + contents + last
}

// The message, of the used parts.
fn put_message(
    s: Layer,
    keys: &[u32],
    values: &[u32],
    texts: &[u8],
    features: &[u32],
    out: &mut [u8],
) -> usize
    requires { Writable (Sound s (given keys.now values.now texts.now features.now)) (layer_bytes s (given keys.now values.now texts.now features.now)) (length out.old) }
    ensures { Gives (put (layer_bytes s (entered keys values texts features)) out.old) result out.new }
{
    let extent = s.extent;
    let name = put_text(Field::LayerName, texts, 0, s.name, out);
    let records = name + put_features(features, &mut out[name..]);
    let table = records + put_keys(texts, keys, &mut out[records..]);
    let contents = table + put_values(texts, values, &mut out[table..]);
    let last = contents + put_varint_field(Field::LayerExtent, extent as u64, &mut out[contents..]);
    last + put_varint_field(Field::LayerVersion, VERSION, &mut out[last..])
}

// The message's size, of a layer that breaks no rule of STATE.
pub(crate) fn held_size(
    s: Layer,
    keys: &[u32],
    values: &[u32],
    texts: &[u8],
    features: &[u32],
) -> usize
    requires { valid (seen s (given keys.now values.now texts.now features.now)) ≡ true }
    ensures { result ≡ length (layer_bytes s (held_by s.used (entered keys values texts features))) }
{
    let used = s.used;
    let k = used.keys * 2;
    let v = used.values * 3;
    let t = used.texts;
    let w = used.features;
    message_size(s, &keys[..k], &values[..v], &texts[..t], &features[..w])
}

// The field of the tile, of a layer whose message has this size.
pub(crate) fn put_layer(
    s: Layer,
    size: usize,
    keys: &[u32],
    values: &[u32],
    texts: &[u8],
    features: &[u32],
    out: &mut [u8],
) -> usize
    requires { Reckoned (seen s (given keys.now values.now texts.now features.now)) size (length out.old) }
    ensures { Gives (put (layer_field (seen s (entered keys values texts features))) out.old) result out.new }
{
    let used = s.used;
    let k = used.keys * 2;
    let v = used.values * 3;
    let t = used.texts;
    let w = used.features;
    let at = put_varint_field(Field::TileLayer, size as u64, out);
    let count = put_message(
        s,
        &keys[..k],
        &values[..v],
        &texts[..t],
        &features[..w],
        &mut out[at..],
    );
    at + count
}

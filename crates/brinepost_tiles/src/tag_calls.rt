// A tag of the open feature, from C: a call for each kind of value. Floats and doubles are given by their bits. Each refuses STATE, TEXT, UTF8, TURN,
// AGAIN (of a strict layer) and ROOM.
ghost use Rattle.promise.specs.Lent.{mutable};
ghost use Rattle.table.specs.Values.{float_kind, double_kind, int_kind, uint_kind, sint_kind, bool_kind};
ghost use Rattle.layer.specs.Calls.{add_tag, tag_string, tag_bits, bits_of, bit_of};
ghost use Rattle.brinepost_tiles.specs.Calls.{is_true};
ghost use Rattle.brinepost_tiles.specs.Lending.{Called};

use crate::answers::{BpChanged, changed};
use crate::carried::{BpLayer, layer_of};

// A text.
#[unsafe(no_mangle)]
pub extern "C" fn bp_add_tag_string(
    given: BpLayer,
    key: &[u8],
    val: &[u8],
    keys: &mut [u32],
    values: &mut [u32],
    texts: &mut [u8],
    features: &mut [u32],
) -> BpChanged
    ensures { Called (add_tag (tag_string key.now val.now)) given result (mutable keys) (mutable values) (mutable texts) (mutable features) }
{
    let s = layer_of(given);
    let r = layer::tags::add_tag_string(s, key, val, keys, values, texts, features);
    changed(given, r)
}

// A float, by its bits.
#[unsafe(no_mangle)]
pub extern "C" fn bp_add_tag_float(
    given: BpLayer,
    key: &[u8],
    bits: u32,
    keys: &mut [u32],
    values: &mut [u32],
    texts: &mut [u8],
    features: &mut [u32],
) -> BpChanged
    ensures { Called (add_tag (tag_bits float_kind key.now bits)) given result (mutable keys) (mutable values) (mutable texts) (mutable features) }
{
    let s = layer_of(given);
    let r = layer::tags::add_tag_float(s, key, bits, keys, values, texts, features);
    changed(given, r)
}

// A double, by its bits.
#[unsafe(no_mangle)]
pub extern "C" fn bp_add_tag_double(
    given: BpLayer,
    key: &[u8],
    bits: u64,
    keys: &mut [u32],
    values: &mut [u32],
    texts: &mut [u8],
    features: &mut [u32],
) -> BpChanged
    ensures { Called (add_tag (tag_bits double_kind key.now bits)) given result (mutable keys) (mutable values) (mutable texts) (mutable features) }
{
    let s = layer_of(given);
    let r = layer::tags::add_tag_double(s, key, bits, keys, values, texts, features);
    changed(given, r)
}

// An int.
#[unsafe(no_mangle)]
pub extern "C" fn bp_add_tag_int(
    given: BpLayer,
    key: &[u8],
    val: i64,
    keys: &mut [u32],
    values: &mut [u32],
    texts: &mut [u8],
    features: &mut [u32],
) -> BpChanged
    ensures { Called (add_tag (tag_bits int_kind key.now (bits_of val))) given result (mutable keys) (mutable values) (mutable texts) (mutable features) }
{
    let s = layer_of(given);
    let r = layer::tags::add_tag_int(s, key, val, keys, values, texts, features);
    changed(given, r)
}

// A uint.
#[unsafe(no_mangle)]
pub extern "C" fn bp_add_tag_uint(
    given: BpLayer,
    key: &[u8],
    val: u64,
    keys: &mut [u32],
    values: &mut [u32],
    texts: &mut [u8],
    features: &mut [u32],
) -> BpChanged
    ensures { Called (add_tag (tag_bits uint_kind key.now val)) given result (mutable keys) (mutable values) (mutable texts) (mutable features) }
{
    let s = layer_of(given);
    let r = layer::tags::add_tag_uint(s, key, val, keys, values, texts, features);
    changed(given, r)
}

// A sint.
#[unsafe(no_mangle)]
pub extern "C" fn bp_add_tag_sint(
    given: BpLayer,
    key: &[u8],
    val: i64,
    keys: &mut [u32],
    values: &mut [u32],
    texts: &mut [u8],
    features: &mut [u32],
) -> BpChanged
    ensures { Called (add_tag (tag_bits sint_kind key.now (bits_of val))) given result (mutable keys) (mutable values) (mutable texts) (mutable features) }
{
    let s = layer_of(given);
    let r = layer::tags::add_tag_sint(s, key, val, keys, values, texts, features);
    changed(given, r)
}

// A bool: 0 is false, and every other number is true.
#[unsafe(no_mangle)]
pub extern "C" fn bp_add_tag_bool(
    given: BpLayer,
    key: &[u8],
    val: u32,
    keys: &mut [u32],
    values: &mut [u32],
    texts: &mut [u8],
    features: &mut [u32],
) -> BpChanged
    ensures { Called (add_tag (tag_bits bool_kind key.now (bit_of (is_true val)))) given result (mutable keys) (mutable values) (mutable texts) (mutable features) }
{
    let s = layer_of(given);
    let r = layer::tags::add_tag_bool(s, key, val != 0, keys, values, texts, features);
    changed(given, r)
}

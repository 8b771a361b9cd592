// The tags of a layer's open feature (in the Rust: add_tag_string to add_tag_bool of Feature): one call for each kind of value. Floats and doubles are
// given by their bits, since values are equal by bits. Each call costs its STATE check, which reads the used part of every list once, and a scan of the
// keys and of the values.
ghost use Rattle.std.specs.Prelude.{true, length};
ghost use Rattle.promise.specs.Lent.{mutable};
ghost use Rattle.refusal.specs.declared.Refusal.TheVariants.{Again};
ghost use Rattle.table.specs.Values.{float_kind, double_kind, int_kind, uint_kind, sint_kind, bool_kind};
ghost use Rattle.layer.specs.Calls.{tagged, takes_key, add_tag, bits_of, bit_of, tag_string, tag_bits};
ghost use Rattle.layer.specs.Steps.{Ready};
ghost use Rattle.layer.specs.Held.{check};
ghost use Rattle.layer.specs.Lending.{Does, given, lists};

use crate::once::is_new;
use crate::putting::{grown, put_tag};
use crate::state::is_valid;
use crate::value::{bit_of, value_of};
use crate::{Changed, Figures, Layer};
use number::bits_of;
use refusal::{Refusal, Refused};
use table::{Text, Value};
use utf8::is_utf8;

// A tag of the feature opened at o, if it has room.
fn tag_open(
    s: Layer,
    o: Figures,
    key: &[u8],
    v: Value,
    text: &[u8],
    keys: &mut [u32],
    values: &mut [u32],
    texts: &mut [u8],
    features: &mut [u32],
) -> Changed
    requires { Ready s o (length key.now) (length text.now) (lists keys.old values.old texts.old features.old) }
    ensures { Does (λ w. tagged (given key v text) w o) s result (mutable keys) (mutable values) (mutable texts) (mutable features) }
{
    let u = s.used;
    let k = u.keys * 2;
    let e = u.values * 3;
    let t = u.texts;
    let kf = table::key_pos(&keys[..k], &texts[..t], key);
    let vf = table::val_pos(&values[..e], &texts[..t], v, text);
    let after = grown(u, kf, vf, key.len(), text.len());
    if !Layer::has_room_for(after, keys.len(), values.len(), texts.len(), features.len()) {
        return Err(Refused {
            refusal: Refusal::Room,
            kept: s,
        });
    }
    put_tag(u, o, kf, vf, key, v, text, keys, values, texts, features);
    Ok(Layer { used: after, ..s })
}

// A tag of a strict layer's feature opened at o, if that has none of its key and it has room. It stands by itself, so that the ordinary layer's way is compiled
// without it.
fn tag_strict(
    s: Layer,
    o: Figures,
    key: &[u8],
    v: Value,
    text: &[u8],
    keys: &mut [u32],
    values: &mut [u32],
    texts: &mut [u8],
    features: &mut [u32],
) -> Changed
    requires { Ready s o (length key.now) (length text.now) (lists keys.old values.old texts.old features.old) }
    ensures { Does (λ w. check (takes_key true w.held o.features key.now) Again (tagged (given key v text) w o)) s result (mutable keys) (mutable values) (mutable texts) (mutable features) }
{
    let u = s.used;
    if !is_new(u, o, key, &keys[..], &texts[..], &features[..]) {
        return Err(Refused {
            refusal: Refusal::Again,
            kept: s,
        });
    }
    tag_open(s, o, key, v, text, keys, values, texts, features)
}

// The one tag call behind the seven: v is the value, and text its text where it is one.
fn add_tag(
    s: Layer,
    key: &[u8],
    v: Value,
    text: &[u8],
    keys: &mut [u32],
    values: &mut [u32],
    texts: &mut [u8],
    features: &mut [u32],
) -> Changed
    ensures { Does (add_tag (given key v text)) s result (mutable keys) (mutable values) (mutable texts) (mutable features) }
{
    if !is_valid(s, &keys[..], &values[..], &texts[..], &features[..]) {
        return Err(Refused {
            refusal: Refusal::State,
            kept: s,
        });
    }
    if !Text::may_have(key.len()) {
        return Err(Refused {
            refusal: Refusal::Text,
            kept: s,
        });
    }
    if !Text::may_have(text.len()) {
        return Err(Refused {
            refusal: Refusal::Text,
            kept: s,
        });
    }
    if !is_utf8(key) {
        return Err(Refused {
            refusal: Refusal::Utf8,
            kept: s,
        });
    }
    if !is_utf8(text) {
        return Err(Refused {
            refusal: Refusal::Utf8,
            kept: s,
        });
    }
    let Some(o) = s.feature else {
        return Err(Refused {
            refusal: Refusal::Turn,
            kept: s,
        });
    };
    if s.strict {
        return tag_strict(s, o, key, v, text, keys, values, texts, features);
    }
    tag_open(s, o, key, v, text, keys, values, texts, features)
}

// The six whose value is no text: its content is given by its 64 bits.
fn add_bits(
    s: Layer,
    key: &[u8],
    kind: u32,
    bits: u64,
    keys: &mut [u32],
    values: &mut [u32],
    texts: &mut [u8],
    features: &mut [u32],
) -> Changed
    ensures { Does (add_tag (tag_bits kind key.now bits)) s result (mutable keys) (mutable values) (mutable texts) (mutable features) }
{
    let v = value_of(kind, bits);
    add_tag(s, key, v, b"", keys, values, texts, features)
}

// A tag whose value is a text.
pub fn add_tag_string(
    s: Layer,
    key: &[u8],
    val: &[u8],
    keys: &mut [u32],
    values: &mut [u32],
    texts: &mut [u8],
    features: &mut [u32],
) -> Changed
    ensures { Does (add_tag (tag_string key.now val.now)) s result (mutable keys) (mutable values) (mutable texts) (mutable features) }
{
    let v = Value {
        kind: Value::TEXT,
        low: 0,
        high: 0,
    };
    add_tag(s, key, v, val, keys, values, texts, features)
}

// A tag whose value is a float, given by its bits.
pub fn add_tag_float(
    s: Layer,
    key: &[u8],
    bits: u32,
    keys: &mut [u32],
    values: &mut [u32],
    texts: &mut [u8],
    features: &mut [u32],
) -> Changed
    ensures { Does (add_tag (tag_bits float_kind key.now bits)) s result (mutable keys) (mutable values) (mutable texts) (mutable features) }
{
    let wide = u64::from(bits);
    add_bits(s, key, Value::FLOAT, wide, keys, values, texts, features)
}

// A tag whose value is a double, given by its bits.
pub fn add_tag_double(
    s: Layer,
    key: &[u8],
    bits: u64,
    keys: &mut [u32],
    values: &mut [u32],
    texts: &mut [u8],
    features: &mut [u32],
) -> Changed
    ensures { Does (add_tag (tag_bits double_kind key.now bits)) s result (mutable keys) (mutable values) (mutable texts) (mutable features) }
{
    add_bits(s, key, Value::DOUBLE, bits, keys, values, texts, features)
}

// A tag whose value is an int.
pub fn add_tag_int(
    s: Layer,
    key: &[u8],
    val: i64,
    keys: &mut [u32],
    values: &mut [u32],
    texts: &mut [u8],
    features: &mut [u32],
) -> Changed
    ensures { Does (add_tag (tag_bits int_kind key.now (bits_of val))) s result (mutable keys) (mutable values) (mutable texts) (mutable features) }
{
    let bits = bits_of(val);
    add_bits(s, key, Value::INT, bits, keys, values, texts, features)
}

// A tag whose value is a uint.
pub fn add_tag_uint(
    s: Layer,
    key: &[u8],
    val: u64,
    keys: &mut [u32],
    values: &mut [u32],
    texts: &mut [u8],
    features: &mut [u32],
) -> Changed
    ensures { Does (add_tag (tag_bits uint_kind key.now val)) s result (mutable keys) (mutable values) (mutable texts) (mutable features) }
{
    add_bits(s, key, Value::UINT, val, keys, values, texts, features)
}

// A tag whose value is a sint.
pub fn add_tag_sint(
    s: Layer,
    key: &[u8],
    val: i64,
    keys: &mut [u32],
    values: &mut [u32],
    texts: &mut [u8],
    features: &mut [u32],
) -> Changed
    ensures { Does (add_tag (tag_bits sint_kind key.now (bits_of val))) s result (mutable keys) (mutable values) (mutable texts) (mutable features) }
{
    let bits = bits_of(val);
    add_bits(s, key, Value::SINT, bits, keys, values, texts, features)
}

// A tag whose value is a bool.
pub fn add_tag_bool(
    s: Layer,
    key: &[u8],
    val: bool,
    keys: &mut [u32],
    values: &mut [u32],
    texts: &mut [u8],
    features: &mut [u32],
) -> Changed
    ensures { Does (add_tag (tag_bits bool_kind key.now (bit_of val))) s result (mutable keys) (mutable values) (mutable texts) (mutable features) }
{
    let bits = bit_of(val);
    add_bits(s, key, Value::BOOL, bits, keys, values, texts, features)
}

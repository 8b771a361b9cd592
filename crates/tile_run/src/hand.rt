// What a script has at hand: a layer, or nothing. A layer's calls work on it; where there is none they are TURN.
ghost use Rattle.std.specs.Prelude.{◌≡◌, ◌%◌, ◌/◌};
ghost use Rattle.promise.specs.Lent.{mutable};
ghost use Rattle.promise.specs.Answers.{Gives};
ghost use Rattle.layer.specs.Answers.{said_changed, said_created};
ghost use Rattle.layer.specs.Calls.{into_feature, set_id, add_tag, into_layer, abandoned};
ghost use Rattle.layer.specs.Lending.{Does};
ghost use Rattle.tile_run.specs.Hands.{said_handled, holding, new_hand, creating, tag_of};
ghost use Rattle.tile_run.specs.Lending.{Handles};

use layer::{Changed, Layer};
use refusal::{Refusal, Refused};
use script::Value;

pub type Hand = Option<Layer>;

// What is at hand after an operation, or the refusal and what was at hand.
pub(crate) type Handled = Result<Hand, Refused<Hand>>;

// What a layer's call answered, taken into the hand.
fn hold(c: Changed) -> Handled
    ensures { said_handled result ≡ holding (said_changed c) }
{
    match c {
        Ok(s) => Ok(Some(s)),
        Err(e) => Err(Refused {
            refusal: e.refusal,
            kept: Some(e.kept),
        }),
    }
}

// A new layer takes the place of the one at hand; a refused one leaves it.
fn hold_new(h: Hand, c: Result<Layer, Refusal>) -> Handled
    ensures { said_handled result ≡ new_hand h (said_created c) }
{
    match c {
        Ok(new) => Ok(Some(new)),
        Err(refusal) => Err(Refused { refusal, kept: h }),
    }
}

// Creates a layer, strict or not.
pub(crate) fn create(h: Hand, strict: bool, name: &[u8], extent: u32, texts: &mut [u8]) -> Handled
    ensures { Gives (creating strict name.now extent h texts.old) (said_handled result) texts.new }
{
    if strict {
        return hold_new(h, Layer::new_strict(name, extent, texts));
    }
    hold_new(h, Layer::new(name, extent, texts))
}

// Opens a feature of the layer at hand.
pub(crate) fn open(
    h: Hand,
    kind: u32,
    words: &[u32],
    keys: &[u32],
    values: &[u32],
    texts: &[u8],
    features: &mut [u32],
) -> Handled
    ensures { Handles (into_feature kind words.now) h result keys values texts (mutable features) }
{
    match h {
        None => Err(Refused {
            refusal: Refusal::Turn,
            kept: h,
        }),
        Some(s) => hold(layer::feature::into_feature(
            s, kind, words, keys, values, texts, features,
        )),
    }
}

// Sets the id of the open feature.
pub(crate) fn set_id(
    h: Hand,
    id: u64,
    keys: &[u32],
    values: &[u32],
    texts: &[u8],
    features: &mut [u32],
) -> Handled
    ensures { Handles (set_id (id % 4294967296) (id / 4294967296)) h result keys values texts (mutable features) }
{
    match h {
        None => Err(Refused {
            refusal: Refusal::Turn,
            kept: h,
        }),
        Some(s) => hold(layer::feature::set_id(s, id, keys, values, texts, features)),
    }
}

// Completes the open feature.
pub(crate) fn close(
    h: Hand,
    keys: &[u32],
    values: &[u32],
    texts: &[u8],
    features: &[u32],
) -> Handled
    ensures { Handles into_layer h result keys values texts features }
{
    match h {
        None => Err(Refused {
            refusal: Refusal::Turn,
            kept: h,
        }),
        Some(s) => hold(layer::feature::into_layer(s, keys, values, texts, features)),
    }
}

// Abandons the open feature.
pub(crate) fn abandon(
    h: Hand,
    keys: &[u32],
    values: &[u32],
    texts: &[u8],
    features: &[u32],
) -> Handled
    ensures { Handles abandoned h result keys values texts features }
{
    match h {
        None => Err(Refused {
            refusal: Refusal::Turn,
            kept: h,
        }),
        Some(s) => hold(layer::feature::abandon(s, keys, values, texts, features)),
    }
}

// Tags the open feature of a layer. A text stands in the script's bytes.
fn tag_layer(
    s: Layer,
    key: &[u8],
    v: Value,
    bytes: &[u8],
    keys: &mut [u32],
    values: &mut [u32],
    texts: &mut [u8],
    features: &mut [u32],
) -> Changed
    ensures { Does (add_tag (tag_of bytes.now key.now v)) s result (mutable keys) (mutable values) (mutable texts) (mutable features) }
{
    match v {
        Value::Text(p) => {
            let text = script::text(bytes, p);
            layer::tags::add_tag_string(s, key, text, keys, values, texts, features)
        }
        Value::Float(x) => layer::tags::add_tag_float(s, key, x, keys, values, texts, features),
        Value::Double(x) => layer::tags::add_tag_double(s, key, x, keys, values, texts, features),
        Value::Int(x) => layer::tags::add_tag_int(s, key, x, keys, values, texts, features),
        Value::Uint(x) => layer::tags::add_tag_uint(s, key, x, keys, values, texts, features),
        Value::Sint(x) => layer::tags::add_tag_sint(s, key, x, keys, values, texts, features),
        Value::Bool(x) => layer::tags::add_tag_bool(s, key, x, keys, values, texts, features),
    }
}

// Tags the open feature of the layer at hand.
pub(crate) fn tag(
    h: Hand,
    key: &[u8],
    v: Value,
    bytes: &[u8],
    keys: &mut [u32],
    values: &mut [u32],
    texts: &mut [u8],
    features: &mut [u32],
) -> Handled
    ensures { Handles (add_tag (tag_of bytes.now key.now v)) h result (mutable keys) (mutable values) (mutable texts) (mutable features) }
{
    match h {
        None => Err(Refused {
            refusal: Refusal::Turn,
            kept: h,
        }),
        Some(s) => hold(tag_layer(s, key, v, bytes, keys, values, texts, features)),
    }
}

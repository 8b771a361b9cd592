// What follows a field's key: by MVT's schema and PB's wire types.
ghost use Rattle.std.specs.Prelude.{◌≡◌};
ghost use Rattle.messages.specs.declared.key.Kind.TheVariants.{Tile, Layer, Feature, Value};
ghost use Rattle.messages.specs.declared.key.Holds.TheVariants.{Numbers, Unknown};
ghost use Rattle.messages.specs.Keys.{knows as knowsOf, only as onlyOf, content as content_of, follows as followsOf};

use wire::field::Field;

// MVT's messages.
#[derive(Clone, Copy)]
pub enum Kind {
    Tile,
    Layer,
    Feature,
    Value,
}

// What MVT's schema says of a field's number.
#[derive(Clone, Copy)]
pub enum Holds {
    Number,
    Four,
    Eight,
    Text,
    Numbers,
    Message(Kind),
    Unknown,
}

// A body of a length: any bytes, varints to its end, or a message.
#[derive(Clone, Copy)]
pub enum Body {
    Any,
    Varints,
    Within(Kind),
}

// What follows a key: a varint, so many bytes, a length and a body; or nothing can, since the key is wrong.
#[derive(Clone, Copy)]
pub enum Follows {
    Wrong,
    AVarint,
    Bytes(u64),
    ABody(Body),
}

// The numbers of MVT's fields, by message.
const TILE_LAYER: u64 = 3;

const LAYER_NAME: u64 = 1;

const LAYER_FEATURE: u64 = 2;

const LAYER_KEY: u64 = 3;

const LAYER_VALUE: u64 = 4;

const LAYER_EXTENT: u64 = 5;

const LAYER_VERSION: u64 = 15;

const FEATURE_ID: u64 = 1;

const FEATURE_TAGS: u64 = 2;

const FEATURE_TYPE: u64 = 3;

const FEATURE_GEOMETRY: u64 = 4;

const VALUE_TEXT: u64 = 1;

const VALUE_FLOAT: u64 = 2;

const VALUE_DOUBLE: u64 = 3;

const VALUE_INT: u64 = 4;

const VALUE_UINT: u64 = 5;

const VALUE_SINT: u64 = 6;

const VALUE_BOOL: u64 = 7;

// The keys of MVT's fields: 8 × number + wire type. Tags and geometry have two, since their numbers stand packed or one by one.
#[derive(Clone, Copy)]
pub struct Key {}

impl Key {
    pub const TILE_LAYER: u64 = 8 * TILE_LAYER + Field::DELIMITED;

    pub const LAYER_NAME: u64 = 8 * LAYER_NAME + Field::DELIMITED;

    pub const LAYER_FEATURE: u64 = 8 * LAYER_FEATURE + Field::DELIMITED;

    pub const LAYER_KEY: u64 = 8 * LAYER_KEY + Field::DELIMITED;

    pub const LAYER_VALUE: u64 = 8 * LAYER_VALUE + Field::DELIMITED;

    pub const LAYER_EXTENT: u64 = 8 * LAYER_EXTENT + Field::VARINT;

    pub const LAYER_VERSION: u64 = 8 * LAYER_VERSION + Field::VARINT;

    pub const FEATURE_ID: u64 = 8 * FEATURE_ID + Field::VARINT;

    pub const FEATURE_TAGS: u64 = 8 * FEATURE_TAGS + Field::DELIMITED;

    pub const SINGLE_TAG: u64 = 8 * FEATURE_TAGS + Field::VARINT;

    pub const FEATURE_TYPE: u64 = 8 * FEATURE_TYPE + Field::VARINT;

    pub const FEATURE_GEOMETRY: u64 = 8 * FEATURE_GEOMETRY + Field::DELIMITED;

    pub const SINGLE_WORD: u64 = 8 * FEATURE_GEOMETRY + Field::VARINT;

    pub const VALUE_TEXT: u64 = 8 * VALUE_TEXT + Field::DELIMITED;

    pub const VALUE_FLOAT: u64 = 8 * VALUE_FLOAT + Field::FIXED32;

    pub const VALUE_DOUBLE: u64 = 8 * VALUE_DOUBLE + Field::FIXED64;

    pub const VALUE_INT: u64 = 8 * VALUE_INT + Field::VARINT;

    pub const VALUE_UINT: u64 = 8 * VALUE_UINT + Field::VARINT;

    pub const VALUE_SINT: u64 = 8 * VALUE_SINT + Field::VARINT;

    pub const VALUE_BOOL: u64 = 8 * VALUE_BOOL + Field::VARINT;
}

// PB's largest number of a field.
const MAX_NUMBER: u64 = 536_870_911;

fn knows_tile(n: u64) -> Holds
    ensures { result ≡ knowsOf Tile n }
{
    if n == TILE_LAYER {
        return Holds::Message(Kind::Layer);
    }
    Holds::Unknown
}

fn knows_layer(n: u64) -> Holds
    ensures { result ≡ knowsOf Layer n }
{
    if n == LAYER_NAME {
        return Holds::Text;
    }
    if n == LAYER_FEATURE {
        return Holds::Message(Kind::Feature);
    }
    if n == LAYER_KEY {
        return Holds::Text;
    }
    if n == LAYER_VALUE {
        return Holds::Message(Kind::Value);
    }
    if n == LAYER_EXTENT {
        return Holds::Number;
    }
    if n == LAYER_VERSION {
        return Holds::Number;
    }
    Holds::Unknown
}

fn knows_feature(n: u64) -> Holds
    ensures { result ≡ knowsOf Feature n }
{
    if n == FEATURE_ID {
        return Holds::Number;
    }
    if n == FEATURE_TAGS {
        return Holds::Numbers;
    }
    if n == FEATURE_TYPE {
        return Holds::Number;
    }
    if n == FEATURE_GEOMETRY {
        return Holds::Numbers;
    }
    Holds::Unknown
}

fn knows_value(n: u64) -> Holds
    ensures { result ≡ knowsOf Value n }
{
    if n == VALUE_TEXT {
        return Holds::Text;
    }
    if n == VALUE_FLOAT {
        return Holds::Four;
    }
    if n == VALUE_DOUBLE {
        return Holds::Eight;
    }
    if n == VALUE_INT {
        return Holds::Number;
    }
    if n == VALUE_UINT {
        return Holds::Number;
    }
    if n == VALUE_SINT {
        return Holds::Number;
    }
    if n == VALUE_BOOL {
        return Holds::Number;
    }
    Holds::Unknown
}

fn knows(kind: Kind, n: u64) -> Holds
    ensures { result ≡ knowsOf kind n }
{
    match kind {
        Kind::Tile => knows_tile(n),
        Kind::Layer => knows_layer(n),
        Kind::Feature => knows_feature(n),
        Kind::Value => knows_value(n),
    }
}

// A field that the schema knows must have its own wire type.
fn only(right: u64, wire: u64, f: Follows) -> Follows
    ensures { result ≡ onlyOf right wire f }
{
    if wire == right {
        return f;
    }
    Follows::Wrong
}

// A field that the schema does not know goes by its wire type alone.
fn unknown(wire: u64) -> Follows
    ensures { result ≡ content_of Unknown wire }
{
    if wire == Field::VARINT {
        return Follows::AVarint;
    }
    if wire == Field::FIXED64 {
        return Follows::Bytes(8);
    }
    if wire == Field::DELIMITED {
        return Follows::ABody(Body::Any);
    }
    if wire == Field::FIXED32 {
        return Follows::Bytes(4);
    }
    Follows::Wrong
}

// Numbers stand one by one, or packed.
fn numbers(wire: u64) -> Follows
    ensures { result ≡ content_of Numbers wire }
{
    if wire == Field::VARINT {
        return Follows::AVarint;
    }
    only(Field::DELIMITED, wire, Follows::ABody(Body::Varints))
}

fn content(h: Holds, wire: u64) -> Follows
    ensures { result ≡ content_of h wire }
{
    match h {
        Holds::Number => only(Field::VARINT, wire, Follows::AVarint),
        Holds::Four => only(Field::FIXED32, wire, Follows::Bytes(4)),
        Holds::Eight => only(Field::FIXED64, wire, Follows::Bytes(8)),
        Holds::Text => only(Field::DELIMITED, wire, Follows::ABody(Body::Any)),
        Holds::Numbers => numbers(wire),
        Holds::Message(kind) => only(Field::DELIMITED, wire, Follows::ABody(Body::Within(kind))),
        Holds::Unknown => unknown(wire),
    }
}

// What follows a key of that number in a message of that kind.
pub fn after_key(kind: Kind, key: u64) -> Follows
    ensures { result ≡ followsOf kind key }
{
    let n = key / 8;
    let wire = key % 8;
    if n < 1 {
        return Follows::Wrong;
    }
    if MAX_NUMBER < n {
        return Follows::Wrong;
    }
    let h = knows(kind, n);
    content(h, wire)
}

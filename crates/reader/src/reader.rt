// A reader that stands on the caller's tile bytes and remembers how far it has come: a place among them. Every function is thin: the work is done by those
// that take the bytes and the place.
ghost use Rattle.std.specs.Prelude.{◌≡◌, take, drop};
ghost use Rattle.messages.specs.Tiles.{Answers};
ghost use Rattle.reader.specs.Answers.{next_layer, next_feature, next_key, next_value};

use crate::entries::{ValueAt, next_key_at, next_value_at};
use crate::features::{FeatureHead, next_feature_at};
use crate::layers::{LayerHead, Part, next_layer_at};
use crate::parts::text_at;
use refusal::Fault;

#[derive(Clone, Copy)]
pub struct Reader<'a> {
    pub src: &'a [u8],
    pub at: usize,
}

// At the front of a tile.
pub fn new<'a>(src: &'a [u8]) -> Reader<'a>
    ensures { (result.src ≡ src.entry) × (result.at ≡ 0) }
{
    Reader { src, at: 0 }
}

// How far it has come.
pub fn at<'a>(r: Reader<'a>) -> usize
    ensures { result ≡ r.entry.at }
{
    r.at
}

// The same bytes, at another place: behind a layer, or at the front of its message.
pub fn moved<'a>(r: Reader<'a>, at: usize) -> Reader<'a>
    ensures { (result.src ≡ r.entry.src) × (result.at ≡ at) }
{
    Reader { at, ..r }
}

// The layer that stands there or next behind it.
pub fn next_layer<'a>(r: Reader<'a>) -> Result<Option<LayerHead>, Fault>
    ensures { Answers r.entry.src.now (next_layer r.entry.at r.entry.src.now) result }
{
    next_layer_at(r.src, r.at)
}

// The feature of the layer that ends at a place.
pub fn next_feature<'a>(r: Reader<'a>, end: usize) -> Result<Option<FeatureHead>, Fault>
    ensures { Answers r.entry.src.now (next_feature r.entry.at end r.entry.src.now) result }
{
    next_feature_at(r.src, r.at, end)
}

// Its key.
pub fn next_key<'a>(r: Reader<'a>, end: usize) -> Result<Option<Part>, Fault>
    ensures { Answers r.entry.src.now (next_key r.entry.at end r.entry.src.now) result }
{
    next_key_at(r.src, r.at, end)
}

// Its value.
pub fn next_value<'a>(r: Reader<'a>, end: usize) -> Result<Option<ValueAt>, Fault>
    ensures { Answers r.entry.src.now (next_value r.entry.at end r.entry.src.now) result }
{
    next_value_at(r.src, r.at, end)
}

// The name, key or text that stands in a part of the caller's bytes, as that part.
pub fn text<'a>(r: Reader<'a>, start: usize, len: usize) -> &'a [u8]
    ensures { result.now ≡ take len (drop start r.entry.src.now) }
{
    text_at(r.src, start, len)
}

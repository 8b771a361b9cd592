// The calls that change a layer, from C: the layer goes in and comes back by value, its keys, values, texts and feature records stand in four lent lists.
ghost use Rattle.std.specs.Prelude.{◌%◌, ◌/◌};
ghost use Rattle.promise.specs.Lent.{mutable};
ghost use Rattle.promise.specs.Answers.{Gives};
ghost use Rattle.layer.specs.Calls.{created, created_strict, into_feature, set_id, into_layer, abandoned};
ghost use Rattle.telling.specs.Telling.{told};
ghost use Rattle.brinepost_tiles.specs.Answers.{flat_created};
ghost use Rattle.brinepost_tiles.specs.Lending.{Called, CalledMany, whole_feature};

use crate::answers::{BpChanged, BpMany, changed, many_added};
use crate::carried::{BpLayer, layer_of};
use layer::Layer;
use layer::whole_feature::{Head, add_feature};

// TEXT, UTF8, ROOM, else a layer without features, its name the first text.
#[unsafe(no_mangle)]
pub extern "C" fn bp_layer_new(name: &[u8], extent: u32, texts: &mut [u8]) -> BpChanged
    ensures { Gives (told flat_created (created name.now extent texts.old)) result texts.new }
{
    let r = Layer::new(name, extent, texts);
    crate::answers::created(r)
}

// TEXT, UTF8, ROOM, else the same, strict: a layer that takes no key twice in a feature.
#[unsafe(no_mangle)]
pub extern "C" fn bp_strict_layer_new(name: &[u8], extent: u32, texts: &mut [u8]) -> BpChanged
    ensures { Gives (told flat_created (created_strict name.now extent texts.old)) result texts.new }
{
    let r = Layer::new_strict(name, extent, texts);
    crate::answers::created(r)
}

// KIND, STATE, TURN, ROOM, else a feature is open, its geometry words as given.
#[unsafe(no_mangle)]
pub extern "C" fn bp_into_feature(
    given: BpLayer,
    kind: u32,
    words: &[u32],
    keys: &[u32],
    values: &[u32],
    texts: &[u8],
    features: &mut [u32],
) -> BpChanged
    ensures { Called (into_feature kind words.now) given result keys values texts (mutable features) }
{
    let s = layer_of(given);
    let r = layer::feature::into_feature(s, kind, words, keys, values, texts, features);
    changed(given, r)
}

// STATE, TURN, else the open feature has this id.
#[unsafe(no_mangle)]
pub extern "C" fn bp_set_id(
    given: BpLayer,
    id: u64,
    keys: &[u32],
    values: &[u32],
    texts: &[u8],
    features: &mut [u32],
) -> BpChanged
    ensures { Called (set_id (id % 4294967296) (id / 4294967296)) given result keys values texts (mutable features) }
{
    let s = layer_of(given);
    let r = layer::feature::set_id(s, id, keys, values, texts, features);
    changed(given, r)
}

// STATE, TURN, else the open feature is complete.
#[unsafe(no_mangle)]
pub extern "C" fn bp_into_layer(
    given: BpLayer,
    keys: &[u32],
    values: &[u32],
    texts: &[u8],
    features: &[u32],
) -> BpChanged
    ensures { Called into_layer given result keys values texts features }
{
    let s = layer_of(given);
    let r = layer::feature::into_layer(s, keys, values, texts, features);
    changed(given, r)
}

// STATE, TURN, else all used figures are those at the opening of the feature.
#[unsafe(no_mangle)]
pub extern "C" fn bp_abandon(
    given: BpLayer,
    keys: &[u32],
    values: &[u32],
    texts: &[u8],
    features: &[u32],
) -> BpChanged
    ensures { Called abandoned given result keys values texts features }
{
    let s = layer_of(given);
    let r = layer::feature::abandon(s, keys, values, texts, features);
    changed(given, r)
}

// JOB, KIND, STATE, TEXT, UTF8, TURN, AGAIN, ROOM, of all that it is given, else a whole feature, with an id where has_id is not 0. A tag is five words: where
// its key starts in bytes and how long it is, the kind of its value, and where the text starts and how long it is or the low and the high half of the content.
#[unsafe(no_mangle)]
pub extern "C" fn bp_add_feature(
    given: BpLayer,
    kind: u32,
    has_id: u32,
    id: u64,
    words: &[u32],
    tags: &[u32],
    bytes: &[u8],
    keys: &mut [u32],
    values: &mut [u32],
    texts: &mut [u8],
    features: &mut [u32],
) -> BpChanged
    ensures { Called (whole_feature kind has_id id words tags bytes) given result (mutable keys) (mutable values) (mutable texts) (mutable features) }
{
    let s = layer_of(given);
    let head = Head {
        kind,
        has_id: has_id != 0,
        id,
    };
    let r = add_feature(s, head, words, tags, bytes, keys, values, texts, features);
    changed(given, r)
}

// JOB, else the whole features of the heads one after the other, up to the first that is refused; STATE, where there are no heads. A head is six words: kind,
// id mark (0 or 1), the low and the high half of the id, how many geometry words and how many tag words; these stand in words and in tags, those of one
// feature behind those of the one before. A list of two words for each key that there is room for makes looking up keys quick, and so for the values; a
// shorter one is not used. Where no feature is accepted the two stay as they are.
#[unsafe(no_mangle)]
pub extern "C" fn bp_add_features(
    given: BpLayer,
    heads: &[u32],
    words: &[u32],
    tags: &[u32],
    bytes: &[u8],
    keys: &mut [u32],
    values: &mut [u32],
    texts: &mut [u8],
    features: &mut [u32],
    ki: &mut [u32],
    vi: &mut [u32],
) -> BpMany
    ensures { CalledMany given result heads words tags bytes (mutable keys) (mutable values) (mutable texts) (mutable features) (mutable ki) (mutable vi) }
{
    let s = layer_of(given);
    let r = layer::many::add_features(
        s, heads, words, tags, bytes, keys, values, texts, features, ki, vi,
    );
    many_added(given, r)
}

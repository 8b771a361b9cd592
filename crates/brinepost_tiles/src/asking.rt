// What a layer can be asked, from C.
ghost use Rattle.std.specs.Prelude.{◌≡◌};
ghost use Rattle.layer.specs.Lending.{entered};
ghost use Rattle.layer.specs.Calls.{num_features, num_tags, name_of};
ghost use Rattle.brinepost_tiles.specs.Answers.{flat_counted, flat_named};
ghost use Rattle.brinepost_tiles.specs.Calls.{seen_from};

use crate::answers::{BpCounted, BpNamed, counted, named};
use crate::carried::{BpLayer, layer_of};

// STATE, else how many features are complete.
#[unsafe(no_mangle)]
pub extern "C" fn bp_num_features(
    given: BpLayer,
    keys: &[u32],
    values: &[u32],
    texts: &[u8],
    features: &[u32],
) -> BpCounted
    ensures { result ≡ flat_counted (num_features (seen_from given (entered keys values texts features))) }
{
    let s = layer_of(given);
    let r = layer::asking::num_features(s, keys, values, texts, features);
    counted(r)
}

// STATE, TURN, else how many tag words the open feature has, two a tag.
#[unsafe(no_mangle)]
pub extern "C" fn bp_num_tags(
    given: BpLayer,
    keys: &[u32],
    values: &[u32],
    texts: &[u8],
    features: &[u32],
) -> BpCounted
    ensures { result ≡ flat_counted (num_tags (seen_from given (entered keys values texts features))) }
{
    let s = layer_of(given);
    let r = layer::asking::num_tags(s, keys, values, texts, features);
    counted(r)
}

// STATE, else where the name stands among the texts.
#[unsafe(no_mangle)]
pub extern "C" fn bp_name(
    given: BpLayer,
    keys: &[u32],
    values: &[u32],
    texts: &[u8],
    features: &[u32],
) -> BpNamed
    ensures { result ≡ flat_named (name_of (seen_from given (entered keys values texts features))) }
{
    let s = layer_of(given);
    let r = layer::asking::name(s, keys, values, texts, features);
    named(r)
}

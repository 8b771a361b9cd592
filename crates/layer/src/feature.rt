// The open feature of a layer: opening it, its id, completing and abandoning it. TURN stands for the Rust's ownership.
ghost use Rattle.std.specs.Prelude.{◌≡◌, true, ◌+◌, ◌%◌, ◌/◌, ◌≤◌, length};
ghost use Rattle.promise.specs.Lent.{mutable};
ghost use Rattle.promise.specs.Laid.{lay};
ghost use Rattle.words.specs.Geometries.{max_words};
ghost use Rattle.layer.specs.Held.{room_of, fits};
ghost use Rattle.layer.specs.Calls.{record_with, opened, into_feature, set_id, into_layer, abandoned};
ghost use Rattle.layer.specs.Lending.{Does};

use crate::state::is_valid;
use crate::{Changed, Figures, Layer};
use number::{high, low};
use records::Record;
use refusal::{Refusal, Refused};
use runs::lay;
use words::geometry::Geometry;

// A record without tags at a place that has room for it.
pub(crate) fn lay_record(
    at: usize,
    kind: u32,
    mark: u32,
    id: u64,
    words: &[u32],
    features: &mut [u32],
)
    requires words_len_bound { length words.now ≤ max_words }
    requires words_in_bounds { at + (6 + length words.now) ≤ length features.old }
    ensures { features.new ≡ lay at (record_with kind mark id words.now) features.old }
{
    let head = [kind, mark, low(id), high(id), 0, words.len() as u32];
    lay(&head, features, at);
    lay(words, features, at + Record::HEAD);
}

// A new record at the end of the features, if it has room.
fn put_record(
    s: Layer,
    kind: u32,
    words: &[u32],
    keys: &[u32],
    values: &[u32],
    texts: &[u8],
    features: &mut [u32],
) -> Changed
    requires { fits s.used (room_of (length keys.now) (length values.now) (length texts.now) (length features.old)) ≡ true }
    ensures { Does (opened kind words.now) s result keys values texts (mutable features) }
{
    let n = words.len();
    if Geometry::MAX_WORDS < n {
        return Err(Refused {
            refusal: Refusal::Room,
            kept: s,
        });
    }
    let after = Figures {
        features: s.used.features + (Record::HEAD + n),
        ..s.used
    };
    if !Layer::has_room_for(after, keys.len(), values.len(), texts.len(), features.len()) {
        return Err(Refused {
            refusal: Refusal::Room,
            kept: s,
        });
    }
    lay_record(s.used.features, kind, 0, 0, words, features);
    Ok(Layer {
        used: after,
        feature: Some(s.used),
        ..s
    })
}

// Opens a feature of this kind, its geometry words taken as given.
pub fn into_feature(
    s: Layer,
    kind: u32,
    words: &[u32],
    keys: &[u32],
    values: &[u32],
    texts: &[u8],
    features: &mut [u32],
) -> Changed
    ensures { Does (into_feature kind words.now) s result keys values texts (mutable features) }
{
    let geometry = Geometry { kind };
    if !geometry.is_good() {
        return Err(Refused {
            refusal: Refusal::Kind,
            kept: s,
        });
    }
    if !is_valid(s, keys, values, texts, &features[..]) {
        return Err(Refused {
            refusal: Refusal::State,
            kept: s,
        });
    }
    if !s.is_shut() {
        return Err(Refused {
            refusal: Refusal::Turn,
            kept: s,
        });
    }
    put_record(s, kind, words, keys, values, texts, features)
}

// Sets the id of the open feature.
pub fn set_id(
    s: Layer,
    id: u64,
    keys: &[u32],
    values: &[u32],
    texts: &[u8],
    features: &mut [u32],
) -> Changed
    ensures { Does (set_id (id % 4294967296) (id / 4294967296)) s result keys values texts (mutable features) }
{
    if !is_valid(s, keys, values, texts, &features[..]) {
        return Err(Refused {
            refusal: Refusal::State,
            kept: s,
        });
    }
    let Some(o) = s.feature else {
        return Err(Refused {
            refusal: Refusal::Turn,
            kept: s,
        });
    };
    let words = [1, low(id), high(id)];
    lay(&words, features, o.features + Record::MARK);
    Ok(s)
}

// Completes the open feature.
pub fn into_layer(s: Layer, keys: &[u32], values: &[u32], texts: &[u8], features: &[u32]) -> Changed
    ensures { Does into_layer s result keys values texts features }
{
    if !is_valid(s, keys, values, texts, features) {
        return Err(Refused {
            refusal: Refusal::State,
            kept: s,
        });
    }
    let Some(_) = s.feature else {
        return Err(Refused {
            refusal: Refusal::Turn,
            kept: s,
        });
    };
    Ok(Layer { feature: None, ..s })
}

// Abandons the open feature (in the Rust: `layer`). The figures go back to those at opening; the choice is no figure and stays.
pub fn abandon(s: Layer, keys: &[u32], values: &[u32], texts: &[u8], features: &[u32]) -> Changed
    ensures { Does abandoned s result keys values texts features }
{
    if !is_valid(s, keys, values, texts, features) {
        return Err(Refused {
            refusal: Refusal::State,
            kept: s,
        });
    }
    let Some(o) = s.feature else {
        return Err(Refused {
            refusal: Refusal::Turn,
            kept: s,
        });
    };
    Ok(Layer {
        used: o,
        feature: None,
        ..s
    })
}

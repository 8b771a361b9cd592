// What a layer can be asked.
ghost use Rattle.std.specs.Prelude.{◌≡◌};
ghost use Rattle.layer.specs.Answers.{said_counted, said_named};
ghost use Rattle.layer.specs.Calls.{complete, num_features, num_tags, name_of};
ghost use Rattle.layer.specs.Lending.{sees};

use crate::state::is_valid;
use crate::{Figures, Layer};
use records::Record;
use refusal::{Refusal, Refused};
use table::Text;

fn completed(f: Option<Figures>, u: Figures) -> usize
    ensures { result ≡ complete f u }
{
    match f {
        None => u.features,
        Some(o) => o.features,
    }
}

// How many features are complete.
pub fn num_features(
    s: Layer,
    keys: &[u32],
    values: &[u32],
    texts: &[u8],
    features: &[u32],
) -> Result<usize, Refused<Layer>>
    ensures { said_counted result ≡ num_features (sees s keys values texts features) }
{
    if !is_valid(s, keys, values, texts, features) {
        return Err(Refused {
            refusal: Refusal::State,
            kept: s,
        });
    }
    let n = completed(s.feature, s.used);
    Ok(records::count(&features[..n]).unwrap_or(0))
}

// How many tag words the open feature has, two a tag.
pub fn num_tags(
    s: Layer,
    keys: &[u32],
    values: &[u32],
    texts: &[u8],
    features: &[u32],
) -> Result<usize, Refused<Layer>>
    ensures { said_counted result ≡ num_tags (sees s keys values texts features) }
{
    if !is_valid(s, keys, values, texts, features) {
        return Err(Refused {
            refusal: Refusal::State,
            kept: s,
        });
    }
    let Some(o) = s.feature else {
        return Err(Refused {
            refusal: Refusal::Turn,
            kept: s,
        });
    };
    let at = o.features + Record::TAGS;
    Ok(number::wide(features[at]))
}

// Where the name stands among the texts.
pub fn name(
    s: Layer,
    keys: &[u32],
    values: &[u32],
    texts: &[u8],
    features: &[u32],
) -> Result<Text, Refused<Layer>>
    ensures { said_named result ≡ name_of (sees s keys values texts features) }
{
    if !is_valid(s, keys, values, texts, features) {
        return Err(Refused {
            refusal: Refusal::State,
            kept: s,
        });
    }
    Ok(Text {
        start: 0,
        len: s.name,
    })
}

// AGAIN: a strict layer takes no key twice in a feature (MVT: a key index is unique within a feature). Keys are compared by their bytes, since a table that was
// carried may have one twice. An ordinary layer never looks.
ghost use Rattle.std.specs.Prelude.{◌≡◌, true, [], ◌+◌, ◌≤◌, length};
ghost use Rattle.layer.specs.Held.{mem, held_by};
ghost use Rattle.layer.specs.Calls.{is_key, has_key, takes_key};
ghost use Rattle.layer.specs.TagLists.{ok_at, tags_ok, once_at, keys_once, takes_keys};
ghost use Rattle.layer.specs.Steps.{TagsThere};

use crate::Figures;
use crate::need::key_given;
use crate::tag_list::Place;
use number::wide;
use records::Record;

// Whether entry k of the keys is there and is this key.
fn is_key(keys: &[u32], texts: &[u8], k: usize, key: &[u8]) -> bool
    ensures { result ≡ is_key keys.now texts.now k key.now }
{
    if keys.len() / 2 <= k {
        return false;
    }
    let at = k * 2;
    let start = wide(keys[at]);
    let len = wide(keys[at + 1]);
    table::same_text(texts, start, len, key)
}

// Whether a tag has this key; of each tag there are two words, the indices of its key and of its value.
fn has_key(keys: &[u32], texts: &[u8], tags: &[u32], key: &[u8]) -> bool
    ensures { result ≡ has_key keys.now texts.now tags.now key.now }
{
    let (list, _) = tags.as_chunks::<2>();
    list.iter().any(|t| is_key(keys, texts, wide(t[0]), key))
}

// Whether the feature opened at o has no tag of this key. Its record is the last, so its tag words are the last ones.
pub(crate) fn is_new(
    u: Figures,
    o: Figures,
    key: &[u8],
    keys: &[u32],
    texts: &[u8],
    features: &[u32],
) -> bool
    requires { TagsThere u o keys.now texts.now features.now }
    ensures { result ≡ takes_key true (held_by u (mem keys.now [] texts.now features.now)) o.features key.now }
{
    let k = u.keys * 2;
    let t = u.texts;
    let end = u.features;
    let at = end - wide(features[o.features + Record::TAGS]);
    !has_key(&keys[..k], &texts[..t], &features[at..end], key)
}

// Whether no tag behind the one at index i has its key.
fn is_once(tags: &[u32], i: usize, bytes: &[u8]) -> bool
    requires i_in_bounds { i + 5 ≤ length tags.now }
    requires i_value { ok_at (length bytes.now) tags.now i ≡ true }
    ensures { result ≡ once_at bytes.now tags.now i }
{
    let a = wide(tags[i]);
    let b = a + wide(tags[i + Place::LEN]);
    let next = i + Place::WORDS;
    !key_given(&tags[next..], bytes, &bytes[a..b])
}

// Whether no key comes twice in a list of tags.
fn are_once(tags: &[u32], bytes: &[u8]) -> bool
    requires { tags_ok (length bytes.now) tags.now ≡ true }
    ensures { result ≡ keys_once bytes.now tags.now }
{
    // A `while`: each turn asks the tags behind its own, by the index.
    let mut i = 0;
    while i < tags.len() {
        if !is_once(tags, i, bytes) {
            return false;
        }
        i += Place::WORDS;
    }
    true
}

// Whether a layer, strict or not, takes the keys of a list of tags in one feature.
pub(crate) fn takes_keys(strict: bool, tags: &[u32], bytes: &[u8]) -> bool
    requires { tags_ok (length bytes.now) tags.now ≡ true }
    ensures { result ≡ takes_keys strict bytes.now tags.now }
{
    if !strict {
        return true;
    }
    are_once(tags, bytes)
}

// Whether a whole feature has room, asked before anything of it is written. A bound that fits decides it; else every tag is looked up in what the layer holds,
// and what is not found there among the tags before it, as if those were put.
ghost use Rattle.std.specs.Prelude.{◌≡◌, [], length};
ghost use Rattle.layer.specs.Held.{fits};
ghost use Rattle.layer.specs.Lending.{sees, lists};
ghost use Rattle.layer.specs.TagLists.{tags_of, key_given};
ghost use Rattle.layer.specs.Lookup.{idx};
ghost use Rattle.layer.specs.WholeSteps.{Asking, Decides};
ghost use Rattle.layer.specs.NeedSteps.{ample, value_among, if_given, key_known, value_known, need_of, most_of, walked, needed, step_at};
ghost use Rattle.layer.specs.NeedSteps.{KeyAsked, ValueAsked, MostAsked, NeedAsked, MostLoop, NeedLoop};

use crate::lookup::{find_key, find_value};
use crate::putting::grown;
use crate::tag_list::{Place, place_at};
use crate::{Figures, Layer, fits_in};
use number::wide;
use records::Record;
use table::{Text, Value};

// Whether a tag of the list has this key.
pub(crate) fn key_given(tags: &[u32], bytes: &[u8], key: &[u8]) -> bool
    ensures { result ≡ key_given bytes.now tags.now key.now }
{
    let (list, _) = tags.as_chunks::<5>();
    list.iter().any(|t| table::same_text(bytes, wide(t[0]), wide(t[Place::LEN]), key))
}

// Whether a tag of the list has this value.
fn value_among(tags: &[u32], bytes: &[u8], v: Value, text: &[u8]) -> bool
    ensures { result ≡ value_among bytes.now tags.now v text.now }
{
    let (list, _) = tags.as_chunks::<5>();
    list.iter().any(|t| table::same_value(
        bytes,
        t[Place::KIND],
        t[Place::LOW],
        t[Place::HIGH],
        v,
        text,
    ))
}

// Anything, where an earlier tag gives it.
fn if_given(given: bool) -> Option<usize>
    ensures { result ≡ if_given given }
{
    if given {
        return Some(0);
    }
    None
}

// Whether the key at this place is in the table, or an earlier tag's.
fn key_known(
    at: Text,
    earlier: &[u32],
    bytes: &[u8],
    room: usize,
    keys: &[u32],
    texts: &[u8],
    key_index: &[u32],
) -> Option<usize>
    requires { KeyAsked at.start at.len (length bytes.now) key_index.now room keys.now texts.now }
    ensures { result ≡ key_known keys.now texts.now bytes.now earlier.now at }
{
    let start = at.start;
    let end = start + at.len;
    let key = &bytes[start..end];
    let hash = index::hash_text(key);
    match find_key(key_index, room, keys, texts, key, hash) {
        Some(j) => Some(j),
        None => if_given(key_given(earlier, bytes, key)),
    }
}

// The same of a value, with its text at this place.
fn value_known(
    v: Value,
    at: Text,
    earlier: &[u32],
    bytes: &[u8],
    room: usize,
    values: &[u32],
    texts: &[u8],
    value_index: &[u32],
) -> Option<usize>
    requires { ValueAsked at.start at.len (length bytes.now) value_index.now room values.now texts.now }
    ensures { result ≡ value_known values.now texts.now bytes.now earlier.now v at }
{
    let start = at.start;
    let end = start + at.len;
    let text = &bytes[start..end];
    let hash = index::hash_value(v, text);
    match find_value(value_index, room, values, texts, v, text, hash) {
        Some(j) => Some(j),
        None => if_given(value_among(earlier, bytes, v, text)),
    }
}

// The figures after the tag at index i, which is looked up.
fn need_of(
    w: Figures,
    tags: &[u32],
    i: usize,
    bytes: &[u8],
    room: Figures,
    keys: &[u32],
    values: &[u32],
    texts: &[u8],
    key_index: &[u32],
    value_index: &[u32],
) -> Figures
    requires { NeedAsked w tags.now i bytes.now room keys.now values.now texts.now key_index.now value_index.now }
    ensures { result ≡ step_at (need_of keys.now values.now texts.now bytes.now) tags.now i w }
{
    let p = place_at(tags, i);
    let kf = key_known(p.key, &tags[..i], bytes, room.keys, keys, texts, key_index);
    let vf = value_known(
        p.value,
        p.text,
        &tags[..i],
        bytes,
        room.values,
        values,
        texts,
        value_index,
    );
    grown(w, kf, vf, p.key.len, p.text.len)
}

// The figures after the tag of five words, if its key and its value are new.
fn most_of(w: Figures, t: &[u32; 5]) -> Figures
    requires { MostAsked w t.now 0 }
    ensures { result ≡ step_at most_of t.now 0 w }
{
    let p = place_at(t, 0);
    grown(w, None, None, p.key.len, p.text.len)
}

// Whether so many tags fit, whatever they are: a new key and a new value each, of the longest texts. Where there is much room no tag is looked at.
fn is_ample(w: Figures, tags: usize, room: Figures) -> bool
    ensures { result ≡ ample w tags room }
{
    if !fits_in(w, room) {
        return false;
    }
    (tags <= room.keys - w.keys)
        & ((tags <= room.values - w.values)
            & ((tags <= (room.texts - w.texts) / (2 * Text::MAX_BYTES))
                & (tags <= (room.features - w.features) / 2)))
}

// Whether all tags would fit if every key and every value were new. Figures only grow, so once they do not fit they never will.
fn is_most_met(w: Figures, tags: &[u32], room: Figures) -> bool
    requires { MostLoop tags.now room }
    ensures { result ≡ fits (walked most_of [] tags.now w) room }
{
    if is_ample(w, tags.len() / Place::WORDS, room) {
        return true;
    }
    let (list, _) = tags.as_chunks::<5>();
    let mut u = w;
    for t in list {
        if !fits_in(u, room) {
            return false;
        }
        u = most_of(u, t);
    }
    fits_in(u, room)
}

// Whether all tags fit.
fn is_need_met(
    w: Figures,
    tags: &[u32],
    bytes: &[u8],
    room: Figures,
    keys: &[u32],
    values: &[u32],
    texts: &[u8],
    key_index: &[u32],
    value_index: &[u32],
) -> bool
    requires { NeedLoop tags.now bytes.now room keys.now values.now texts.now key_index.now value_index.now }
    ensures { result ≡ fits (needed keys.now values.now texts.now bytes.now tags.now w) room }
{
    // A `while`: each turn looks among the tags before its own, by the index.
    let mut u = w;
    let mut i = 0;
    while Place::WORDS <= tags.len() - i {
        if !fits_in(u, room) {
            return false;
        }
        u = need_of(
            u,
            tags,
            i,
            bytes,
            room,
            keys,
            values,
            texts,
            key_index,
            value_index,
        );
        i += Place::WORDS;
    }
    fits_in(u, room)
}

// Whether a feature of so many words and of these tags has room.
pub(crate) fn has_room(
    s: Layer,
    words: usize,
    tags: &[u32],
    bytes: &[u8],
    keys: &[u32],
    values: &[u32],
    texts: &[u8],
    features: &[u32],
    key_index: &[u32],
    value_index: &[u32],
) -> bool
    requires { Asking s words tags.now bytes.now (lists keys.now values.now texts.now features.now) (idx key_index.now value_index.now) }
    ensures { Decides result words (tags_of bytes.now tags.now) (sees s keys values texts features) }
{
    let room = Layer::room(keys.len(), values.len(), texts.len(), features.len());
    let u = s.used;
    let w = Figures {
        features: u.features + (Record::HEAD + words),
        ..u
    };
    if is_most_met(w, tags, room) {
        return true;
    }
    let k = u.keys * 2;
    let v = u.values * 3;
    let t = u.texts;
    is_need_met(
        w,
        tags,
        bytes,
        room,
        &keys[..k],
        &values[..v],
        &texts[..t],
        key_index,
        value_index,
    )
}

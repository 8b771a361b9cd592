// A tag of a list put, looked up by the indexes that serve. Nothing is asked here: it is a tag, short, and has room.
ghost use Rattle.promise.specs.Lent.{mutable};
ghost use Rattle.layer.specs.Calls.{tag_put};
ghost use Rattle.layer.specs.TagLists.{tag_at};
ghost use Rattle.layer.specs.Lookup.{idx};
ghost use Rattle.layer.specs.WholeSteps.{TagThere, MayTag};
ghost use Rattle.layer.specs.Lending.{lists, Fills};

use crate::lookup::{find_key, find_value, note};
use crate::putting::{grown, put_tag};
use crate::tag_list::place_at;
use crate::{Figures, Layer};

// The tag of the five words at index i, of the feature opened at o.
pub(crate) fn put_tag_at(
    s: Layer,
    o: Figures,
    tags: &[u32],
    i: usize,
    bytes: &[u8],
    keys: &mut [u32],
    values: &mut [u32],
    texts: &mut [u8],
    features: &mut [u32],
    ki: &mut [u32],
    vi: &mut [u32],
) -> Layer
    requires tag_there { TagThere bytes.now tags.now i }
    requires may_tag { MayTag s o (tag_at bytes.now tags.now i) (lists keys.old values.old texts.old features.old) (idx ki.old vi.old) }
    ensures { Fills (tag_put o (tag_at bytes.now tags.now i)) s result (mutable keys) (mutable values) (mutable texts) (mutable features) (mutable ki) (mutable vi) }
{
    let p = place_at(tags, i);
    let v = p.value;
    let a = p.key.start;
    let b = a + p.key.len;
    let c = p.text.start;
    let d = c + p.text.len;
    let key = &bytes[a..b];
    let text = &bytes[c..d];
    let u = s.used;
    let k = u.keys * 2;
    let e = u.values * 3;
    let t = u.texts;
    let room = Layer::room(keys.len(), values.len(), texts.len(), features.len());
    let kh = index::hash_text(key);
    let vh = index::hash_value(v, text);
    let kf = find_key(&ki[..], room.keys, &keys[..k], &texts[..t], key, kh);
    let vf = find_value(&vi[..], room.values, &values[..e], &texts[..t], v, text, vh);
    let after = grown(u, kf, vf, key.len(), text.len());
    put_tag(u, o, kf, vf, key, v, text, keys, values, texts, features);
    note(ki, room.keys, kf, u.keys, kh);
    note(vi, room.values, vf, u.values, vh);
    Layer { used: after, ..s }
}

// A whole feature in one call (in the Rust: a feature opened, tagged and closed). All that it was given is asked first, ROOM last; then it is written. The
// single calls check the layer's STATE each; this one checks it once, so a feature costs what the layer holds and no more.
ghost use Rattle.std.specs.Prelude.{◌≡◌, cond};
ghost use Rattle.promise.specs.Lent.{mutable};
ghost use Rattle.layer.specs.TagLists.{tags_of};
ghost use Rattle.layer.specs.Whole.{mark_of, id_of, feature_put, add_feature};
ghost use Rattle.layer.specs.Lookup.{idx};
ghost use Rattle.layer.specs.WholeSteps.{asks, MayPut, Known};
ghost use Rattle.layer.specs.Lending.{Does, DoesIndexed, Fills, lists};

use crate::feature::lay_record;
use crate::filling::put_tag_at;
use crate::indexes::build_index;
use crate::need::has_room;
use crate::once::takes_keys;
use crate::state::is_valid;
use crate::tag_list::{Place, are_short, are_utf8, is_tag_list};
use crate::{Changed, Figures, Layer};
use records::Record;
use refusal::{Refusal, Refused};
use words::geometry::Geometry;

// What a feature is besides its lists: its kind, and its id if it has one.
#[derive(Clone, Copy)]
pub struct Head {
    pub kind: u32,
    pub has_id: bool,
    pub id: u64,
}

// One of a list of heads is six words, with how many geometry words and tag words the feature has.
impl Head {
    pub(crate) const WORDS: usize = 6;

    // Where they stand, behind the kind: the id mark, the halves of the id, and the two numbers.
    pub(crate) const MARK: usize = 1;

    pub(crate) const LOW: usize = 2;

    pub(crate) const HIGH: usize = 3;

    pub(crate) const GEOMETRY: usize = 4;

    pub(crate) const TAGS: usize = 5;
}

// The first refusal but ROOM, in the order of the checks; stands says whether the layer breaks no rule of STATE.
fn first_refusal(
    s: Layer,
    stands: bool,
    kind: u32,
    words: usize,
    tags: &[u32],
    bytes: &[u8],
) -> Result<(), Refusal>
    ensures { result ≡ asks s.feature s.strict stands kind words tags.now bytes.now }
{
    if !is_tag_list(tags, bytes.len()) {
        return Err(Refusal::Job);
    }
    let geometry = Geometry { kind };
    if !geometry.is_good() {
        return Err(Refusal::Kind);
    }
    if !stands {
        return Err(Refusal::State);
    }
    if !are_short(tags) {
        return Err(Refusal::Text);
    }
    if !are_utf8(tags, bytes) {
        return Err(Refusal::Utf8);
    }
    if !s.is_shut() {
        return Err(Refusal::Turn);
    }
    if !takes_keys(s.strict, tags, bytes) {
        return Err(Refusal::Again);
    }
    if Geometry::MAX_WORDS < words {
        return Err(Refusal::Room);
    }
    Ok(())
}

fn mark_of(f: Head) -> u32
    ensures { result ≡ mark_of f }
{
    if f.has_id {
        return 1;
    }
    0
}

fn id_of(f: Head) -> u64
    ensures { result ≡ id_of f }
{
    if f.has_id {
        return f.id;
    }
    0
}

// A feature that has room: its record, then its tags one after the other.
fn put_feature(
    s: Layer,
    f: Head,
    words: &[u32],
    tags: &[u32],
    bytes: &[u8],
    keys: &mut [u32],
    values: &mut [u32],
    texts: &mut [u8],
    features: &mut [u32],
    ki: &mut [u32],
    vi: &mut [u32],
) -> Layer
    requires { MayPut s f words.now tags.now bytes.now (lists keys.old values.old texts.old features.old) (idx ki.old vi.old) }
    ensures { Fills (feature_put f words.now (tags_of bytes.now tags.now)) s result (mutable keys) (mutable values) (mutable texts) (mutable features) (mutable ki) (mutable vi) }
{
    let o = s.used;
    let mark = mark_of(f);
    let id = id_of(f);
    lay_record(o.features, f.kind, mark, id, words, features);
    let used = Figures {
        features: o.features + (Record::HEAD + words.len()),
        ..o
    };
    let mut t = Layer {
        used,
        feature: Some(o),
        ..s
    };
    // A `while`: a tag is put by its index, of which the loop's invariant speaks.
    let mut i = 0;
    while i < tags.len() {
        t = put_tag_at(t, o, tags, i, bytes, keys, values, texts, features, ki, vi);
        i += Place::WORDS;
    }
    Layer { feature: None, ..t }
}

// So much of an index is used as is built of it.
fn reach(built: bool, len: usize) -> usize
    ensures { result ≡ cond built len 0 }
{
    if built {
        return len;
    }
    0
}

// A whole feature, where it is known whether the layer breaks no rule of STATE: whoever adds many asks once. The indexes are built when the first one is
// accepted.
pub(crate) fn add_known(
    s: Layer,
    stands: bool,
    built: bool,
    f: Head,
    words: &[u32],
    tags: &[u32],
    bytes: &[u8],
    keys: &mut [u32],
    values: &mut [u32],
    texts: &mut [u8],
    features: &mut [u32],
    ki: &mut [u32],
    vi: &mut [u32],
) -> Changed
    requires { Known s stands built (lists keys.old values.old texts.old features.old) (idx ki.old vi.old) }
    ensures { DoesIndexed (add_feature f words.now tags.now bytes.now) s result (mutable keys) (mutable values) (mutable texts) (mutable features) (mutable ki) (mutable vi) }
{
    match first_refusal(s, stands, f.kind, words.len(), tags, bytes) {
        Err(refusal) => return Err(Refused { refusal, kept: s }),
        Ok(()) => {}
    }
    let a = reach(built, ki.len());
    let b = reach(built, vi.len());
    if !has_room(
        s,
        words.len(),
        tags,
        bytes,
        &keys[..],
        &values[..],
        &texts[..],
        &features[..],
        &ki[..a],
        &vi[..b],
    ) {
        return Err(Refused {
            refusal: Refusal::Room,
            kept: s,
        });
    }
    let u = s.used;
    let room = Layer::room(keys.len(), values.len(), texts.len(), features.len());
    build_index(u, built, room, &keys[..], &values[..], &texts[..], ki, vi);
    Ok(put_feature(
        s, f, words, tags, bytes, keys, values, texts, features, ki, vi,
    ))
}

// A whole feature of this head, with these geometry words and tags. The tags are five words each: where the key starts and how long it is, the value's kind,
// and then where its text starts and how long it is, or the low and the high half of its content; the texts stand in bytes.
pub fn add_feature(
    s: Layer,
    f: Head,
    words: &[u32],
    tags: &[u32],
    bytes: &[u8],
    keys: &mut [u32],
    values: &mut [u32],
    texts: &mut [u8],
    features: &mut [u32],
) -> Changed
    ensures { Does (add_feature f words.now tags.now bytes.now) s result (mutable keys) (mutable values) (mutable texts) (mutable features) }
{
    let stands = is_valid(s, &keys[..], &values[..], &texts[..], &features[..]);
    let mut none = [0u32; 1];
    let mut nothing = [0u32; 1];
    add_known(
        s,
        stands,
        true,
        f,
        words,
        tags,
        bytes,
        keys,
        values,
        texts,
        features,
        &mut none,
        &mut nothing,
    )
}

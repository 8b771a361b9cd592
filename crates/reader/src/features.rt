// The next feature of a layer: its id, its kind, and how many tag indices and geometry words it has. Its fields are gone through once, in any order.
ghost use Rattle.std.specs.Prelude.{◌≡◌, ◌+◌, ◌<◌, length};
ghost use Rattle.messages.specs.Tiles.{Answers};
ghost use Rattle.reader.specs.Answers.{next_feature};
ghost use Rattle.reader.specs.FeatureSteps.{with_id, with_kind, with_tags, with_words, Adds, tags_read, words_read, with_field, Ample, feature_read, feature_step};

use crate::cause::{Cause, fault_of};
use crate::find::first_of;
use crate::layers::low32;
use crate::packed::count_varints;
use messages::field::{FieldAt, field_at};
use messages::key::{Key, Kind};
use refusal::Fault;

#[derive(Clone, Copy)]
pub struct FeatureHead {
    pub id: Option<u64>,
    pub kind: u32,
    pub tags: usize,
    pub words: usize,
    // Where its message stands; the next feature is behind it.
    pub start: usize,
    pub end: usize,
}

// A head with one of its parts anew.
fn with_id(h: FeatureHead, id: u64) -> FeatureHead
    ensures { result ≡ with_id h id }
{
    FeatureHead { id: Some(id), ..h }
}

fn with_kind(h: FeatureHead, kind: u32) -> FeatureHead
    ensures { result ≡ with_kind h kind }
{
    FeatureHead { kind, ..h }
}

fn with_tags(h: FeatureHead, n: usize) -> FeatureHead
    requires { h.tags + n < 18446744073709551616 }
    ensures { result ≡ with_tags h n }
{
    FeatureHead {
        tags: h.tags + n,
        ..h
    }
}

fn with_words(h: FeatureHead, n: usize) -> FeatureHead
    requires { h.words + n < 18446744073709551616 }
    ensures { result ≡ with_words h n }
{
    FeatureHead {
        words: h.words + n,
        ..h
    }
}

// The numbers of a packed field count, or it cannot be read.
fn with_tag_count(h: FeatureHead, c: Option<usize>) -> Option<FeatureHead>
    requires { Adds h.tags c }
    ensures { result ≡ tags_read h c }
{
    let n = c?;
    Some(with_tags(h, n))
}

fn with_word_count(h: FeatureHead, c: Option<usize>) -> Option<FeatureHead>
    requires { Adds h.words c }
    ensures { result ≡ words_read h c }
{
    let n = c?;
    Some(with_words(h, n))
}

// One field more: of an id and a kind the last counts, and fields that have no part in the head are passed over.
fn with_field(h: FeatureHead, src: &[u8], f: FieldAt) -> Option<FeatureHead>
    requires { Ample h f (length src.now) }
    ensures { result ≡ with_field h src.now f }
{
    if f.key == Key::FEATURE_ID {
        return Some(with_id(h, f.value));
    }
    if f.key == Key::FEATURE_TYPE {
        return Some(with_kind(h, low32(f.value)));
    }
    if f.key == Key::SINGLE_TAG {
        return Some(with_tags(h, 1));
    }
    if f.key == Key::SINGLE_WORD {
        return Some(with_words(h, 1));
    }
    if f.key == Key::FEATURE_TAGS {
        return with_tag_count(h, count_varints(&src[..f.end], f.start));
    }
    if f.key == Key::FEATURE_GEOMETRY {
        return with_word_count(h, count_varints(&src[..f.end], f.start));
    }
    Some(h)
}

// The head of a feature whose message stands from a place to the end of the bytes.
pub(crate) fn feature_head(src: &[u8], start: usize) -> Option<FeatureHead>
    ensures { result ≡ feature_read start src.now }
{
    let mut h = FeatureHead {
        id: None,
        kind: 0,
        tags: 0,
        words: 0,
        start,
        end: src.len(),
    };
    let mut at = start;
    // A turn goes on where its field ends, so that no `for` says it plainer.
    while at < src.len() {
        let f = field_at(Kind::Feature, src, at)?;
        h = with_field(h, src, f)?;
        at = f.end;
    }
    Some(h)
}

// The next feature of a layer whose message ends at `end`.
pub(crate) fn feature_step(src: &[u8], at: usize, end: usize) -> Result<Option<FeatureHead>, Cause>
    ensures { result ≡ feature_step at end src.now }
{
    if end < at {
        return Err(Cause::Outside);
    }
    if src.len() < end {
        return Err(Cause::Outside);
    }
    let part = &src[..end];
    let Some(f) = first_of(Kind::Layer, Key::LAYER_FEATURE, part, at)? else {
        return Ok(None);
    };
    match feature_head(&part[..f.end], f.start) {
        Some(h) => Ok(Some(h)),
        None => Err(Cause::Broken),
    }
}

// The next feature of the layer whose message ends at `end`, from the place `at` on, or None where none follows.
pub fn next_feature_at(src: &[u8], at: usize, end: usize) -> Result<Option<FeatureHead>, Fault>
    ensures { Answers src.now (next_feature at end src.now) result }
{
    match feature_step(src, at, end) {
        Ok(feature) => Ok(feature),
        Err(e) => Err(fault_of(src, e)),
    }
}

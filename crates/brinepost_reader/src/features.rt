// The next feature of a layer, from C.
ghost use Rattle.std.specs.Prelude.{◌≡◌};
ghost use Rattle.messages.specs.Tiles.{Answers};
ghost use Rattle.reader.specs.Answers.{next_feature};
ghost use Rattle.brinepost_reader.specs.Flat.{as_told, bit_of, no_feature, flat_feature};

use reader::features::{FeatureHead, next_feature_at};
use refusal::Fault;

#[repr(C)]
#[derive(Clone, Copy)]
pub struct BpNextFeature {
    pub refusal: u32,
    // 1, or 0 where no feature follows or the call is refused.
    pub is_there: u32,
    pub place: usize,
    pub has_id: u32,
    pub kind: u32,
    pub id: u64,
    pub tags: usize,
    pub words: usize,
    pub start: usize,
    pub end: usize,
}

fn bit(b: bool) -> u32
    ensures { result ≡ bit_of b }
{
    if b { 1 } else { 0 }
}

// No feature, refused or not.
fn without(refusal: u32, place: usize) -> BpNextFeature
    ensures { result ≡ no_feature refusal place }
{
    BpNextFeature {
        refusal,
        is_there: 0,
        place,
        has_id: 0,
        kind: 0,
        id: 0,
        tags: 0,
        words: 0,
        start: 0,
        end: 0,
    }
}

fn answered(r: Result<Option<FeatureHead>, Fault>) -> BpNextFeature
    ensures { result ≡ flat_feature r }
{
    match r {
        Ok(Some(h)) => BpNextFeature {
            refusal: 0,
            is_there: 1,
            place: 0,
            has_id: bit(h.id.is_some()),
            kind: h.kind,
            id: h.id.unwrap_or(0),
            tags: h.tags,
            words: h.words,
            start: h.start,
            end: h.end,
        },
        Ok(None) => without(0, 0),
        Err(f) => without(refusal::number(f.refusal), f.place),
    }
}

#[unsafe(no_mangle)]
pub extern "C" fn bp_next_feature(bytes: &[u8], at: usize, end: usize) -> BpNextFeature
    ensures { Answers bytes.now (as_told flat_feature (next_feature at end bytes.now)) result }
{
    let r = next_feature_at(bytes, at, end);
    answered(r)
}

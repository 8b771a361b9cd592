// A feature's tag indices and geometry words, from C: they are laid at the front of the lent list.
ghost use Rattle.std.specs.Prelude.{◌≡◌};
ghost use Rattle.wire.specs.declared.field.Field.TheVariants.{FeatureTags, FeatureGeometry};
ghost use Rattle.messages.specs.Tiles.{Answers};
ghost use Rattle.telling.specs.Telling.{told};
ghost use Rattle.reader.specs.Answers.{words_into};
ghost use Rattle.brinepost_reader.specs.Flat.{as_told, flat_words};

use reader::into::{geometry_into, tags_into};
use refusal::Fault;

#[repr(C)]
#[derive(Clone, Copy)]
pub struct BpWordsRead {
    pub refusal: u32,
    pub place: usize,
    pub count: usize,
}

fn answered(r: Result<usize, Fault>) -> BpWordsRead
    ensures { result ≡ flat_words r }
{
    match r {
        Ok(n) => BpWordsRead {
            refusal: 0,
            place: 0,
            count: n,
        },
        Err(f) => BpWordsRead {
            refusal: refusal::number(f.refusal),
            place: f.place,
            count: 0,
        },
    }
}

#[unsafe(no_mangle)]
pub extern "C" fn bp_read_tags(
    bytes: &[u8],
    start: usize,
    end: usize,
    out: &mut [u32],
) -> BpWordsRead
    ensures { Answers bytes.now (as_told (told flat_words) (words_into FeatureTags start end bytes.now out.old)) (record { answer = result; memory = out.new }) }
{
    let r = tags_into(bytes, start, end, out);
    answered(r)
}

#[unsafe(no_mangle)]
pub extern "C" fn bp_read_geometry(
    bytes: &[u8],
    start: usize,
    end: usize,
    out: &mut [u32],
) -> BpWordsRead
    ensures { Answers bytes.now (as_told (told flat_words) (words_into FeatureGeometry start end bytes.now out.old)) (record { answer = result; memory = out.new }) }
{
    let r = geometry_into(bytes, start, end, out);
    answered(r)
}

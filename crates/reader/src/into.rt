// A feature's tag indices and geometry words, packed or single, in a lent list. The feature is read twice: to count, so that a refusal writes nothing, and to lay.
ghost use Rattle.std.specs.Prelude.{◌≡◌};
ghost use Rattle.promise.specs.Answers.{Gives};
ghost use Rattle.messages.specs.declared.key.Kind.TheVariants.{Feature};
ghost use Rattle.messages.specs.Fields.{fields_from};
ghost use Rattle.messages.specs.Meaning.{or_nothing};
ghost use Rattle.messages.specs.Tiles.{Answers};
ghost use Rattle.wire.specs.declared.field.Field.TheVariants.{FeatureTags, FeatureGeometry};
ghost use Rattle.reader.specs.Answers.{words_into};
ghost use Rattle.reader.specs.Packed.{PutsAt};
ghost use Rattle.reader.specs.WordSteps.{field_of, packed_of, single_of, count_of, words_by, words_at, FieldFits, AllFit, words_step};

use crate::cause::{Cause, fault_of};
use crate::features::{FeatureHead, feature_head};
use crate::layers::low32;
use crate::packed::lay_varints;
use messages::field::{FieldAt, field_at};
use messages::key::{Key, Kind};
use refusal::Fault;

// The numbers of a feature that a call lays.
#[derive(Clone, Copy)]
pub(crate) enum Which {
    Tags,
    Geometry,
}

// The key of a packed list.
fn packed_key(which: Which) -> u64
    ensures { result ≡ packed_of which }
{
    match which {
        Which::Tags => Key::FEATURE_TAGS,
        Which::Geometry => Key::FEATURE_GEOMETRY,
    }
}

// The key of a number by itself.
fn single_key(which: Which) -> u64
    ensures { result ≡ single_of which }
{
    match which {
        Which::Tags => Key::SINGLE_TAG,
        Which::Geometry => Key::SINGLE_WORD,
    }
}

// How many of them a feature has.
fn count_of(which: Which, h: FeatureHead) -> usize
    ensures { result ≡ count_of which h }
{
    match which {
        Which::Tags => h.tags,
        Which::Geometry => h.words,
    }
}

// Lays the numbers of one field into `out`, the first at `from`, and answers the place behind the last.
fn lay_field(
    packed: u64,
    single: u64,
    src: &[u8],
    f: FieldAt,
    from: usize,
    out: &mut [u32],
) -> usize
    requires { FieldFits packed single src.now f from out.old }
    ensures { PutsAt from (words_by packed single src.now f) out.old result out.new }
{
    if f.key == packed {
        return lay_varints(&src[..f.end], f.start, from, out);
    }
    if f.key == single {
        out[from] = low32(f.value);
        return from + 1;
    }
    from
}

// Lays the numbers of a good feature at the front of `out`, field by field, and answers how many there are.
fn lay_fields(packed: u64, single: u64, src: &[u8], start: usize, out: &mut [u32]) -> usize
    requires { AllFit packed single src.now start out.old }
    ensures { PutsAt 0 (words_at packed single src.now (or_nothing (fields_from Feature start src.now))) out.old result out.new }
{
    let mut at = start;
    let mut n = 0;
    // A turn goes on where its field ends, so that no `for` says it plainer.
    while at < src.len() {
        let Some(f) = field_at(Kind::Feature, src, at) else {
            return n;
        };
        n = lay_field(packed, single, src, f, n, out);
        at = f.end;
    }
    n
}

// Lays the numbers of the feature whose message stands from `start` to `end` at the front of the list, and answers how many there are.
pub(crate) fn words_step(
    which: Which,
    src: &[u8],
    start: usize,
    end: usize,
    out: &mut [u32],
) -> Result<usize, Cause>
    ensures { Gives (words_step (field_of which) start end src.now out.old) result out.new }
{
    if end < start {
        return Err(Cause::Outside);
    }
    if src.len() < end {
        return Err(Cause::Outside);
    }
    let part = &src[..end];
    let Some(h) = feature_head(part, start) else {
        return Err(Cause::Broken);
    };
    let n = count_of(which, h);
    if out.len() < n {
        return Err(Cause::NoRoom);
    }
    let packed = packed_key(which);
    let single = single_key(which);
    Ok(lay_fields(packed, single, part, start, out))
}

// Both calls: what was done, and whose fault it is where the feature cannot be read.
fn words_into(
    which: Which,
    src: &[u8],
    start: usize,
    end: usize,
    out: &mut [u32],
) -> Result<usize, Fault>
    ensures { Answers src.now (words_into (field_of which) start end src.now out.old) (record { answer = result; memory = out.new }) }
{
    match words_step(which, src, start, end, out) {
        Ok(n) => Ok(n),
        Err(e) => Err(fault_of(src, e)),
    }
}

// The tag indices of the feature whose message stands from `start` to `end`, at the front of the list: how many there are.
pub fn tags_into(src: &[u8], start: usize, end: usize, out: &mut [u32]) -> Result<usize, Fault>
    ensures { Answers src.now (words_into FeatureTags start end src.now out.old) (record { answer = result; memory = out.new }) }
{
    words_into(Which::Tags, src, start, end, out)
}

// The geometry words of the feature whose message stands from `start` to `end`, alike.
pub fn geometry_into(src: &[u8], start: usize, end: usize, out: &mut [u32]) -> Result<usize, Fault>
    ensures { Answers src.now (words_into FeatureGeometry start end src.now out.old) (record { answer = result; memory = out.new }) }
{
    words_into(Which::Geometry, src, start, end, out)
}

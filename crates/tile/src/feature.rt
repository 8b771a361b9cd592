// The bytes of a feature (MVT's message Feature), from its record in a layer's words.
ghost use Rattle.std.specs.Prelude.{◌≡◌, ◌+◌, ◌≤◌, length};
ghost use Rattle.promise.specs.Answers.{Gives};
ghost use Rattle.promise.specs.Puts.{put};
ghost use Rattle.tile.specs.Features.{id_field, feature_message, record_message, record_size};
ghost use Rattle.tile.specs.Steps.{Writable};

use number::{of_halves, wide};
use records::Record;
use wire::field::Field;
use wire::head::{put_varint_field, varint_field_size};
use wire::packed::{packed_size, put_packed};

fn id_size(mark: u32, low: u32, high: u32) -> usize
    ensures { result ≡ length (id_field mark low high) }
{
    if mark == 1 {
        return varint_field_size(Field::FeatureId, of_halves(low, high));
    }
    0
}

fn put_id(mark: u32, low: u32, high: u32, out: &mut [u8]) -> usize
    ensures { Gives (put (id_field mark low high) out.old) result out.new }
{
    if mark == 1 {
        return put_varint_field(Field::FeatureId, of_halves(low, high), out);
    }
    0
}

// Of a record's parts: their lengths are words of 32 bits, so the sum fits.
fn parts_size(kind: u32, mark: u32, low: u32, high: u32, tags: &[u32], geometry: &[u32]) -> usize
    requires { length tags.now + length geometry.now ≤ 8589934590 }
    ensures { result ≡ length (feature_message kind mark low high tags.now geometry.now) }
{
    let id = id_size(mark, low, high);
    let tag = packed_size(Field::FeatureTags, tags);
    let kinds = varint_field_size(Field::FeatureType, kind as u64);
    let words = packed_size(Field::FeatureGeometry, geometry);
    id + tag + kinds + words
}

fn put_parts(
    kind: u32,
    mark: u32,
    low: u32,
    high: u32,
    tags: &[u32],
    geometry: &[u32],
    out: &mut [u8],
) -> usize
    requires { length (feature_message kind mark low high tags.now geometry.now) ≤ length out.old }
    ensures { Gives (put (feature_message kind mark low high tags.now geometry.now) out.old) result out.new }
{
    let a = put_id(mark, low, high, out);
    let k = put_packed(Field::FeatureTags, tags, &mut out[a..]);
    let b = a + k;
    let m = put_varint_field(Field::FeatureType, kind as u64, &mut out[b..]);
    let d = b + m;
    let n = put_packed(Field::FeatureGeometry, geometry, &mut out[d..]);
    d + n
}

// How many words the record at the front takes.
pub(crate) fn record_size(words: &[u32]) -> usize
    requires { record_size words.now ≤ length words.now }
    ensures { result ≡ record_size words.now }
{
    Record::HEAD + wide(words[Record::GEOMETRY]) + wide(words[Record::TAGS])
}

// Of the record at the front of these words.
pub(crate) fn feature_size(words: &[u32]) -> usize
    requires { record_size words.now ≤ length words.now }
    ensures { result ≡ length (record_message words.now) }
{
    let tags = Record::HEAD + wide(words[Record::GEOMETRY]);
    let end = tags + wide(words[Record::TAGS]);
    parts_size(
        words[Record::KIND],
        words[Record::MARK],
        words[Record::LOW],
        words[Record::HIGH],
        &words[tags..end],
        &words[Record::HEAD..tags],
    )
}

pub(crate) fn put_feature(words: &[u32], out: &mut [u8]) -> usize
    requires { Writable (record_size words.now ≤ length words.now) (record_message words.now) (length out.old) }
    ensures { Gives (put (record_message words.now) out.old) result out.new }
{
    let tags = Record::HEAD + wide(words[Record::GEOMETRY]);
    let end = tags + wide(words[Record::TAGS]);
    put_parts(
        words[Record::KIND],
        words[Record::MARK],
        words[Record::LOW],
        words[Record::HIGH],
        &words[tags..end],
        &words[Record::HEAD..tags],
        out,
    )
}

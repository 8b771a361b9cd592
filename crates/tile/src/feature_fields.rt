// A layer's features, a record each, as nested messages: each is written into the part of the lent list that follows its length.
ghost use Rattle.std.specs.Prelude.{◌≡◌, true, ◌≤◌, length};
ghost use Rattle.promise.specs.Answers.{Gives};
ghost use Rattle.promise.specs.Puts.{put};
ghost use Rattle.records.specs.Records.{follow};
ghost use Rattle.tile.specs.Features.{record_size};
ghost use Rattle.tile.specs.Entries.{feature_field, feature_fields};
ghost use Rattle.tile.specs.Steps.{Writable, max_size};

use crate::feature::{feature_size, put_feature, record_size};
use wire::field::Field;
use wire::head::{put_varint_field, varint_field_size};

// Of the record at the front of these words.
fn field_size(words: &[u32]) -> usize
    requires { record_size words.now ≤ length words.now }
    ensures { result ≡ length (feature_field words.now) }
{
    let size = feature_size(words);
    varint_field_size(Field::LayerFeature, size as u64) + size
}

fn put_field(words: &[u32], out: &mut [u8]) -> usize
    requires { Writable (record_size words.now ≤ length words.now) (feature_field words.now) (length out.old) }
    ensures { Gives (put (feature_field words.now) out.old) result out.new }
{
    let size = feature_size(words);
    let at = put_varint_field(Field::LayerFeature, size as u64, out);
    let count = put_feature(words, &mut out[at..]);
    at + count
}

pub(crate) fn features_size(features: &[u32]) -> usize
    requires { Writable (follow features.now ≡ true) (feature_fields 0 features.now) max_size }
    ensures { result ≡ length (feature_fields 0 features.now) }
{
    let mut i = 0;
    let mut size = 0;
    // Counted by hand: how many words a record takes stands in the record, so the step differs from turn to turn.
    while i < features.len() {
        let more = field_size(&features[i..]);
        let words = record_size(&features[i..]);
        size += more;
        i += words;
    }
    size
}

pub(crate) fn put_features(features: &[u32], out: &mut [u8]) -> usize
    requires { Writable (follow features.now ≡ true) (feature_fields 0 features.now) (length out.old) }
    ensures { Gives (put (feature_fields 0 features.now) out.old) result out.new }
{
    let mut i = 0;
    let mut at = 0;
    // Counted by hand: how many words a record takes stands in the record, so the step differs from turn to turn.
    while i < features.len() {
        let count = put_field(&features[i..], &mut out[at..]);
        let words = record_size(&features[i..]);
        at += count;
        i += words;
    }
    at
}

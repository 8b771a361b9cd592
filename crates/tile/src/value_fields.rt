// A layer's values, of three words each, as nested messages: each is written into the part of the lent list that follows its length.
ghost use Rattle.std.specs.Prelude.{◌≡◌, true, length};
ghost use Rattle.promise.specs.Answers.{Gives};
ghost use Rattle.promise.specs.Puts.{put};
ghost use Rattle.table.specs.Values.{value_ok, values_in};
ghost use Rattle.tile.specs.Entries.{value_field, value_fields};
ghost use Rattle.tile.specs.Steps.{Writable, max_size};

use crate::value::{put_value, value_size};
use wire::field::Field;
use wire::head::{put_varint_field, varint_field_size};

fn field_size(texts: &[u8], kind: u32, low: u32, high: u32) -> usize
    requires { value_ok (length texts.now) kind low high ≡ true }
    ensures { result ≡ length (value_field texts.now kind low high) }
{
    let size = value_size(texts, kind, low, high);
    varint_field_size(Field::LayerValue, size as u64) + size
}

fn put_field(texts: &[u8], kind: u32, low: u32, high: u32, out: &mut [u8]) -> usize
    requires { Writable (value_ok (length texts.now) kind low high ≡ true) (value_field texts.now kind low high) (length out.old) }
    ensures { Gives (put (value_field texts.now kind low high) out.old) result out.new }
{
    let size = value_size(texts, kind, low, high);
    let at = put_varint_field(Field::LayerValue, size as u64, out);
    let count = put_value(texts, kind, low, high, &mut out[at..]);
    at + count
}

pub(crate) fn values_size(texts: &[u8], values: &[u32]) -> usize
    requires { Writable (values_in (length texts.now) values.now ≡ true) (value_fields texts.now values.now) max_size }
    ensures { result ≡ length (value_fields texts.now values.now) }
{
    let (entries, _) = values.as_chunks::<3>();
    let mut size = 0;
    for e in entries {
        let more = field_size(texts, e[0], e[1], e[2]);
        size += more;
    }
    size
}

pub(crate) fn put_values(texts: &[u8], values: &[u32], out: &mut [u8]) -> usize
    requires { Writable (values_in (length texts.now) values.now ≡ true) (value_fields texts.now values.now) (length out.old) }
    ensures { Gives (put (value_fields texts.now values.now) out.old) result out.new }
{
    let (entries, _) = values.as_chunks::<3>();
    let mut at = 0;
    for e in entries {
        let count = put_field(texts, e[0], e[1], e[2], &mut out[at..]);
        at += count;
    }
    at
}

// Lists of numbers in one field: the numbers as varints, one after the other, behind their length in bytes.
ghost use Rattle.std.specs.Prelude.{◌≡◌, ◌≤◌, length};
ghost use Rattle.promise.specs.Answers.{Gives};
ghost use Rattle.wire.specs.Fields.{varints, packed_field};
ghost use Rattle.promise.specs.Puts.{put, Puts};

use crate::field::Field;
use crate::head::{put_varint_field, varint_field_size};
use crate::varint::{put_varint, varint_size};

// How many bytes the numbers take: five at most each, so that a slice of words never takes more than 64 bits can count.
pub fn varints_size(words: &[u32]) -> usize
    ensures { result ≡ length (varints words.now) }
{
    let mut size = 0;
    for word in words {
        size += varint_size(u64::from(*word));
    }
    size
}

fn lay_varints(words: &[u32], out: &mut [u8]) -> usize
    requires { length (varints words.now) ≤ length out.old }
    ensures { Puts (varints words.now) out.old result out.new }
{
    let mut at = 0;
    for word in words {
        let count = put_varint(u64::from(*word), &mut out[at..]);
        at += count;
    }
    at
}

pub fn packed_size(field: Field, words: &[u32]) -> usize
    ensures { result ≡ length (packed_field field words.now) }
{
    if words.is_empty() {
        return 0;
    }
    let size = varints_size(words);
    varint_field_size(field, size as u64) + size
}

// An empty list is no field at all.
pub fn put_packed(field: Field, words: &[u32], out: &mut [u8]) -> usize
    ensures { Gives (put (packed_field field words.now) out.old) result out.new }
{
    if words.is_empty() {
        return 0;
    }
    let size = varints_size(words);
    if out.len() < varint_field_size(field, size as u64) + size {
        return 0;
    }
    let at = put_varint_field(field, size as u64, out);
    let count = lay_varints(words, &mut out[at..]);
    at + count
}

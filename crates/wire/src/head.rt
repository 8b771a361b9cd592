// What a field begins with, and a field that is a number.
ghost use Rattle.std.specs.Prelude.{◌≡◌, length};
ghost use Rattle.promise.specs.Answers.{Gives};
ghost use Rattle.wire.specs.Schema.{head};
ghost use Rattle.wire.specs.Fields.{varint_field};
ghost use Rattle.promise.specs.Puts.{put};

use crate::field::Field;
use crate::varint::{put_varint, varint_size};

pub fn head_size(field: Field) -> usize
    ensures { result ≡ length (head field) }
{
    let key = field.key();
    varint_size(key)
}

pub fn put_head(field: Field, out: &mut [u8]) -> usize
    ensures { Gives (put (head field) out.old) result out.new }
{
    let key = field.key();
    put_varint(key, out)
}

pub fn varint_field_size(field: Field, n: u64) -> usize
    ensures { result ≡ length (varint_field field n) }
{
    head_size(field) + varint_size(n)
}

// Also what stands before the body of a delimited field: there n is the body's length.
pub fn put_varint_field(field: Field, n: u64, out: &mut [u8]) -> usize
    ensures { Gives (put (varint_field field n) out.old) result out.new }
{
    let size = varint_field_size(field, n);
    if out.len() < size {
        return 0;
    }
    let at = put_head(field, out);
    let count = put_varint(n, &mut out[at..]);
    at + count
}

// Bytes as they are, and a field of them: a text, or a message that is ready.
ghost use Rattle.promise.specs.Answers.{Gives};
ghost use Rattle.wire.specs.Fields.{delimited};
ghost use Rattle.promise.specs.Puts.{put};

use crate::field::Field;
use crate::head::{put_varint_field, varint_field_size};

pub fn put_run(bytes: &[u8], out: &mut [u8]) -> usize
    ensures { Gives (put bytes.now out.old) result out.new }
{
    if out.len() < bytes.len() {
        return 0;
    }
    // Byte by byte: of `copy_from_slice` the compiler makes a call of memmove, and the C libraries are to need no such name.
    for i in 0..bytes.len() {
        out[i] = bytes[i];
    }
    bytes.len()
}

pub fn put_bytes(field: Field, bytes: &[u8], out: &mut [u8]) -> usize
    ensures { Gives (put (delimited field bytes.now) out.old) result out.new }
{
    let length = bytes.len();
    let size = varint_field_size(field, length as u64) + length;
    if out.len() < size {
        return 0;
    }
    let at = put_varint_field(field, length as u64, out);
    let count = put_run(bytes, &mut out[at..]);
    at + count
}

// Fields of four and of eight bytes, the least significant first: the bits of a float and of a double.
ghost use Rattle.std.specs.Prelude.{◌++◌};
ghost use Rattle.promise.specs.Answers.{Gives};
ghost use Rattle.wire.specs.Schema.{head};
ghost use Rattle.wire.specs.Fields.{fixed32_field, fixed64_field};
ghost use Rattle.promise.specs.Puts.{put};

use crate::field::Field;
use crate::head::{head_size, put_head};
use crate::run::put_run;

// A head, and bytes behind it.
fn put_headed(field: Field, bytes: &[u8], out: &mut [u8]) -> usize
    ensures { Gives (put (head field ++ bytes.now) out.old) result out.new }
{
    let size = head_size(field) + bytes.len();
    if out.len() < size {
        return 0;
    }
    let at = put_head(field, out);
    let count = put_run(bytes, &mut out[at..]);
    at + count
}

pub fn put_fixed32(field: Field, n: u32, out: &mut [u8]) -> usize
    ensures { Gives (put (fixed32_field field n) out.old) result out.new }
{
    let float = n.to_le_bytes();
    put_headed(field, &float, out)
}

pub fn put_fixed64(field: Field, n: u64, out: &mut [u8]) -> usize
    ensures { Gives (put (fixed64_field field n) out.old) result out.new }
{
    let double = n.to_le_bytes();
    put_headed(field, &double, out)
}

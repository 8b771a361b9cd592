// The varints of a packed list: how many there are, and the low 32 bits of each in a lent list. The bytes end where the list does.
ghost use Rattle.std.specs.Prelude.{◌≡◌};
ghost use Rattle.messages.specs.Fields.{numbers_from};
ghost use Rattle.reader.specs.Packed.{counted, RoomFor, PutsAt, low_of};

use crate::layers::low32;
use messages::numbers::varint_at;

// How many varints stand from a place on, or None where what stands there is not varints, exactly to the end.
pub(crate) fn count_varints(src: &[u8], at: usize) -> Option<usize>
    ensures { result ≡ counted (numbers_from at src.now) }
{
    let mut i = at;
    let mut n = 0;
    // A turn goes on where its varint ends, so that no `for` says it plainer.
    while i < src.len() {
        let (_, next) = varint_at(src, i)?;
        n += 1;
        i = next;
    }
    Some(n)
}

// Lays the varints that stand from a place on into `out`, the first at `from`, and answers the place behind the last.
pub(crate) fn lay_varints(src: &[u8], at: usize, from: usize, out: &mut [u32]) -> usize
    requires { RoomFor (numbers_from at src.now) from out.old }
    ensures { PutsAt from (low_of (numbers_from at src.now)) out.old result out.new }
{
    let mut i = at;
    let mut n = from;
    // Here too a turn goes on where its varint ends.
    while i < src.len() {
        let Some((number, next)) = varint_at(src, i) else {
            return n;
        };
        out[n] = low32(number);
        n += 1;
        i = next;
    }
    n
}

// The texts of a script: a length in bytes, then the bytes, four to a number.
ghost use Rattle.std.specs.Prelude.{◌≡◌};
ghost use Rattle.script.specs.Script.{filled, text_at};

use crate::Part;
use number::wide;

// Whether the bytes that fill a text's last word up are zero.
fn is_filled(len: usize, last: u32) -> bool
    ensures { result ≡ filled len last }
{
    match len % 4 {
        0 => true,
        1 => last < 256,
        2 => last < 65_536,
        _ => last < 16_777_216,
    }
}

// The text whose length stands at a place, and where the number behind it stands.
pub(crate) fn read_text(numbers: &[u32], at: usize) -> Option<(Part, usize)>
    ensures { result ≡ text_at numbers.now at }
{
    let len = wide(*numbers.get(at)?);
    let start = at + 1;
    let n = (len + 3) / 4;
    if numbers.len() - start < n {
        return None;
    }
    let last = at + n;
    if !is_filled(len, numbers[last]) {
        return None;
    }
    Some((Part { start, len }, last + 1))
}

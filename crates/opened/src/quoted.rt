// The bytes of a text as they stand between its quotes, laid out in lent bytes: those that a reader could mistake are escaped.
ghost use Rattle.std.specs.Prelude.{◌≡◌, ◌+◌, ◌≤◌, length};
ghost use Rattle.promise.specs.Lent.{mutable};
ghost use Rattle.printed.specs.Lending.{Appends, Shows};
ghost use Rattle.opened.specs.Quoted.{is_marked, is_plain, escaped, quoted_text, quoted_room};

use crate::{Piece, append, append_hex};

impl Piece {
    // For each byte of a text: `\xhh`.
    pub const BYTE: usize = 4;
}

// The two bytes that end a text or an escape stand behind a backslash.
fn is_marked(b: u8) -> bool
    ensures { result ≡ is_marked b }
{
    (b == b'"') | (b == b'\\')
}

// Whether another byte stands as it is: a printable one of ASCII, and one that is not ASCII in a text that is UTF-8.
fn is_plain(b: u8, is_text: bool) -> bool
    ensures { result ≡ is_plain is_text b }
{
    ((0x20 <= b) & (b <= 0x7E)) | ((0x80 <= b) & is_text)
}

// Lays a byte, or what stands for it, at a place of the text: the place after it.
fn append_escaped(b: u8, is_text: bool, at: usize, text: &mut [u8]) -> usize
    requires { at + 4 ≤ length text.old }
    ensures { Appends (escaped is_text b) at result (mutable text) }
{
    if is_marked(b) {
        let pair = [b'\\', b];
        return append(&pair, at, text);
    }
    if is_plain(b, is_text) {
        let single = [b];
        return append(&single, at, text);
    }
    append_hex(b"\\x", b as u64, 2, at, text)
}

// A portion of a text's bytes: how many bytes it is. `is_text` says of the whole text that it is UTF-8. A text shorter than `Piece::BYTE` for each byte
// stays as it is, and the answer is 0.
pub fn show_quoted(bytes: &[u8], is_text: bool, text: &mut [u8]) -> usize
    ensures { Shows (quoted_room bytes.now) (quoted_text is_text bytes.now) result (mutable text) }
{
    let n = bytes.len();
    if text.len() / Piece::BYTE < n {
        return 0;
    }
    let mut next = 0;
    for b in bytes {
        next = append_escaped(*b, is_text, next, text);
    }
    next
}

// The line of a value that is no text, laid out in lent bytes: what kind it is, and its 64 bits as that kind says them.
ghost use Rattle.std.specs.Prelude.{◌+◌, ◌≤◌, ◌++◌, length};
ghost use Rattle.promise.specs.Lent.{mutable};
ghost use Rattle.whole.specs.Twos.{signed64};
ghost use Rattle.printed.specs.Lending.{Appends, Shows};
ghost use Rattle.opened.specs.Values.{signed_decimal, bool_words, value_words, value_text, value_room};

use crate::{Piece, append, append_hex, append_named};

impl Piece {
    pub const VALUE: usize = 33;
}

// The numbers that the fields of a value have in a tile.
const FLOAT: u32 = 2;

const DOUBLE: u32 = 3;

const INT: u32 = 4;

const UINT: u32 = 5;

const SINT: u32 = 6;

const BOOL: u32 = 7;

// A name at the front of the text, and behind it 64 bits read as two's complement, in decimal: the place after them.
fn append_signed(name: &[u8], bits: u64, text: &mut [u8]) -> usize
    requires { length name.now + 21 ≤ length text.old }
    ensures { Appends (name.now ++ signed_decimal (signed64 bits)) 0 result (mutable text) }
{
    if bits < 9_223_372_036_854_775_808 {
        return append_named(name, bits, 0, text);
    }
    let at = append(name, 0, text);
    append_named(b"-", 18_446_744_073_709_551_615 - bits + 1, at, text)
}

fn append_bool(bits: u64, text: &mut [u8]) -> usize
    requires { 16 ≤ length text.old }
    ensures { Appends (bool_words bits) 0 result (mutable text) }
{
    if bits == 0 {
        return append(b"value bool false", 0, text);
    }
    append(b"value bool true", 0, text)
}

// The words of the line, at the front of the text: the place after them.
fn append_value(kind: u32, bits: u64, text: &mut [u8]) -> usize
    requires { 32 ≤ length text.old }
    ensures { Appends (value_words kind bits) 0 result (mutable text) }
{
    if kind == FLOAT {
        return append_hex(b"value float 0x", bits % 4_294_967_296, 8, 0, text);
    }
    if kind == DOUBLE {
        return append_hex(b"value double 0x", bits, 16, 0, text);
    }
    if kind == INT {
        return append_signed(b"value int ", bits, text);
    }
    if kind == UINT {
        return append_named(b"value uint ", bits, 0, text);
    }
    if kind == SINT {
        return append_signed(b"value sint ", bits, text);
    }
    if kind == BOOL {
        return append_bool(bits, text);
    }
    append(b"value empty", 0, text)
}

// The line of a value that is no text: how many bytes it is. A text shorter than `Piece::VALUE` stays as it is, and the answer is 0.
pub fn show_value(kind: u32, bits: u64, text: &mut [u8]) -> usize
    ensures { Shows value_room (value_text kind bits) result (mutable text) }
{
    if text.len() < Piece::VALUE {
        return 0;
    }
    let at = append_value(kind, bits, text);
    append(b"\n", at, text)
}

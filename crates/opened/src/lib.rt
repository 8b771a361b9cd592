// What `open` prints of a tile, piece by piece, laid out in lent bytes. A tile's text can be longer than any list that we can lend, so every piece is
// bounded, and a long text or many numbers are laid in portions.
#![tactic(auto)]

pub mod quoted; // the bytes of a text
pub mod values; // the line of a value that is no text

ghost use Rattle.std.specs.Prelude.{◌+◌, ◌^◌, ◌≤◌, ◌<◌, ◌++◌, length};
ghost use Rattle.promise.specs.Lent.{mutable};
ghost use Rattle.printed.specs.Lending.{Appends, Shows};
ghost use Rattle.opened.specs.Opened.{named, layers_text, layers_room, layer_end_text, layer_end_room, feature_text, feature_room, numbers_text, numbers_room};
ghost use Rattle.opened.specs.Values.{hex_digits};

use runs::lay;

// The texts that a program lends for a piece.
#[derive(Clone, Copy)]
pub struct Piece {}

impl Piece {
    pub const LAYERS: usize = 28;

    pub const LAYER_END: usize = 142;

    pub const FEATURE: usize = 58;

    // For each number of a list: a blank and at most twenty digits.
    pub const NUMBER: usize = 21;
}

// ---- what the pieces are laid of: each lays its bytes at a place of the text, and answers the place after them
pub(crate) fn append(bytes: &[u8], at: usize, text: &mut [u8]) -> usize
    requires { at + length bytes.now ≤ length text.old }
    ensures { Appends bytes.now at result (mutable text) }
{
    lay(bytes, text, at);
    at + bytes.len()
}

// A name, and a number in decimal behind it.
pub(crate) fn append_named(name: &[u8], n: u64, at: usize, text: &mut [u8]) -> usize
    requires { at + length name.now + 20 ≤ length text.old }
    ensures { Appends (named name.now n) at result (mutable text) }
{
    let mut digits = [0u8; 20];
    let k = io::decimal(n, &mut digits);
    let next = append(name, at, text);
    append(&digits[..k], next, text)
}

// A name, and a number in so many hexadecimal digits behind it.
pub(crate) fn append_hex(name: &[u8], n: u64, count: usize, at: usize, text: &mut [u8]) -> usize
    requires le_count { 1 ≤ count }
    requires count_bound { count ≤ 16 }
    requires n_bound { n < 16 ^ count }
    requires count_in_bounds { at + length name.now + count ≤ length text.old }
    ensures { Appends (name.now ++ hex_digits count n) at result (mutable text) }
{
    let mut digits = [0u8; 16];
    let k = io::hex(n, count, &mut digits);
    let next = append(name, at, text);
    append(&digits[..k], next, text)
}

// ---- the pieces
// `layers N`: how many bytes it is. A text shorter than `Piece::LAYERS` stays as it is, and the answer is 0.
pub fn show_layers(n: usize, text: &mut [u8]) -> usize
    ensures { Shows layers_room (layers_text n) result (mutable text) }
{
    if text.len() < Piece::LAYERS {
        return 0;
    }
    let at = append_named(b"layers ", n as u64, 0, text);
    append(b"\n", at, text)
}

// What stands behind the quote that closes a layer's name, to the line's end: how many bytes it is. A text shorter than `Piece::LAYER_END` stays as it
// is, and the answer is 0.
pub fn show_layer_end(
    version: u32,
    extent: u32,
    keys: usize,
    values: usize,
    features: usize,
    text: &mut [u8],
) -> usize
    ensures { Shows layer_end_room (layer_end_text version extent keys values features) result (mutable text) }
{
    if text.len() < Piece::LAYER_END {
        return 0;
    }
    let one = append_named(b" version ", version as u64, 0, text);
    let two = append_named(b" extent ", extent as u64, one, text);
    let three = append_named(b" keys ", keys as u64, two, text);
    let four = append_named(b" values ", values as u64, three, text);
    let five = append_named(b" features ", features as u64, four, text);
    append(b"\n", five, text)
}

// `feature type N`, with its id where it has one: how many bytes it is. A text shorter than `Piece::FEATURE` stays as it is, and the answer is 0.
pub fn show_feature(kind: u32, id: Option<u64>, text: &mut [u8]) -> usize
    ensures { Shows feature_room (feature_text kind id) result (mutable text) }
{
    if text.len() < Piece::FEATURE {
        return 0;
    }
    let at = append_named(b"feature type ", kind as u64, 0, text);
    if let Some(id) = id {
        let next = append_named(b" id ", id, at, text);
        return append(b"\n", next, text);
    }
    append(b"\n", at, text)
}

// Each number with a blank before it: how many bytes it is. A text shorter than `Piece::NUMBER` for each number stays as it is, and the answer is 0.
pub fn show_numbers(numbers: &[u32], text: &mut [u8]) -> usize
    ensures { Shows (numbers_room numbers.now) (numbers_text numbers.now) result (mutable text) }
{
    let n = numbers.len();
    if text.len() / Piece::NUMBER < n {
        return 0;
    }
    let mut next = 0;
    for number in numbers {
        next = append_named(b" ", u64::from(*number), next, text);
    }
    next
}

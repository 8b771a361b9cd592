// What the programs print, laid out in lent bytes: lines of numbers in decimal, one or two to a line, rows of them, lines of a tile's outcomes, and of
// bytes in hexadecimal; and how much of a list, and of a text, is printed. By hand and not by `Display`: there is no heap, and a text is proved to its
// bytes.
#![tactic(auto)]

pub mod faults; // a refusal, and its place where it has one
pub mod losses; // the counts of what was lost
pub mod vertices; // the vertices of words that were read

ghost use Rattle.std.specs.Prelude.{◌≡◌, ◌+◌, ◌*◌, ◌<◌, ◌≤◌, length, take};
ghost use Rattle.promise.specs.Lent.{mutable};
ghost use Rattle.promise.specs.Laid.{lay};
ghost use Rattle.printed.specs.Decimal.{ended};
ghost use Rattle.printed.specs.Lending.{Appends, Shows};
ghost use Rattle.printed.specs.Printed.{column, words_text, words_room, refused_text, refused_room};
ghost use Rattle.printed.specs.Pairs.{pair_line, pair_lines, edges_text, edges_room};
ghost use Rattle.printed.specs.Row.{signed_ended, behind, row_room, row_text};
ghost use Rattle.printed.specs.Tiles.{outcome_line, outcome_lines, hex_digit, hex_byte, ends_line, hex_lines, tile_text, tile_room};

use number::{long, magnitude};

// The texts that the programs lend.
#[derive(Clone, Copy)]
pub struct Text {}

impl Text {
    // For `words N` and the words of any job, or `edges N` and its edges: 27 bytes, and 21 for each of 16,384 numbers.
    pub const WORDS: usize = 27 + 21 * 16_384;

    // For a tile's answer. The checker does not go through a larger list.
    pub const TILE: usize = 450_000;
}

// The first so many numbers of a list, or all of them where it has no more: what is printed of it.
pub fn first_words(words: &[u32], n: usize) -> &[u32]
    ensures { result.now ≡ take n words.now }
{
    if words.len() < n {
        return words;
    }
    &words[..n]
}

// The same of bytes.
pub fn first_bytes(bytes: &[u8], n: usize) -> &[u8]
    ensures { result.now ≡ take n bytes.now }
{
    if bytes.len() < n {
        return bytes;
    }
    &bytes[..n]
}

// Lays `bytes` at a place of the text.
pub(crate) fn append(bytes: &[u8], at: usize, text: &mut [u8])
    requires { at + length bytes.now ≤ length text.old }
    ensures { text.new ≡ lay at bytes.now text.old }
{
    text[at..at + bytes.len()].copy_from_slice(bytes);
}

// Lays a number's digits and then `end` at a place of the text, and answers the place after them. A u64 has at most twenty digits.
pub(crate) fn append_number(n: u64, end: u8, at: usize, text: &mut [u8]) -> usize
    requires { at + 21 ≤ length text.old }
    ensures { Appends (ended n end) at result (mutable text) }
{
    let mut digits = [0u8; 20];
    let k = io::decimal(n, &mut digits);
    append(&digits[..k], at, text);
    let next = at + k;
    text[next] = end;
    next + 1
}

// Lays each word on a line of its own, from a place of the text on, and answers the place after them.
fn append_words(words: &[u32], at: usize, text: &mut [u8]) -> usize
    requires { at + 21 * length words.now ≤ length text.old }
    ensures { Appends (column words.now) at result (mutable text) }
{
    let mut next = at;
    for word in words {
        next = append_number(long(*word), b'\n', next, text);
    }
    next
}

// `words N` and then each word on its own line: how many bytes it is. A text of fewer than 27 bytes, and 21 for each word, stays as it is, and the answer is 0.
pub fn show_words(words: &[u32], text: &mut [u8]) -> usize
    ensures { Shows (words_room words.now) (words_text words.now) result (mutable text) }
{
    let n = words.len();
    if text.len() < 27 {
        return 0;
    }
    if (text.len() - 27) / 21 < n {
        return 0;
    }
    append(b"words ", 0, text);
    let at = append_number(n as u64, b'\n', 6, text);
    append_words(words, at, text)
}

// `refused R at P`: how many bytes it is. A text of fewer than 53 bytes stays as it is, and the answer is 0.
pub fn show_refused(number: u32, points: usize, text: &mut [u8]) -> usize
    ensures { Shows refused_room (refused_text number points) result (mutable text) }
{
    if text.len() < Text::REFUSED {
        return 0;
    }
    append(b"refused ", 0, text);
    let at = append_number(number as u64, b' ', 8, text);
    append(b"at ", at, text);
    append_number(points as u64, b'\n', at + 3, text)
}

// Lays two numbers on one line, a blank between them, at a place of the text: the place after them.
fn append_pair(first: u32, second: u32, at: usize, text: &mut [u8]) -> usize
    requires { at + 42 ≤ length text.old }
    ensures { Appends (pair_line first second) at result (mutable text) }
{
    let next = append_number(long(first), b' ', at, text);
    append_number(long(second), b'\n', next, text)
}

// Lays the numbers two to a line, from a place of the text on: the place after them.
fn append_pairs(numbers: &[u32], at: usize, text: &mut [u8]) -> usize
    requires { at + 21 * length numbers.now ≤ length text.old }
    ensures { Appends (pair_lines numbers.now) at result (mutable text) }
{
    let n = numbers.len() / 2;
    let mut next = at;
    for i in 0..n {
        next = append_pair(numbers[2 * i], numbers[2 * i + 1], next, text);
    }
    next
}

// `edges N` and then each point's two edges on a line: how many bytes it is. A text of fewer than 27 bytes, and 21 for each edge, stays as it is: 0.
pub fn show_edges(edges: &[u32], text: &mut [u8]) -> usize
    ensures { Shows (edges_room edges.now) (edges_text edges.now) result (mutable text) }
{
    let size = text.len();
    if size < 27 {
        return 0;
    }
    if (size - 27) / 21 < edges.len() {
        return 0;
    }
    append(b"edges ", 0, text);
    let at = append_number((edges.len() / 2) as u64, b'\n', 6, text);
    append_pairs(edges, at, text)
}

// Lays a number in decimal, `-` before a negative one, and then `end` at a place of the text: the place after them.
pub(crate) fn append_signed(n: i64, end: u8, at: usize, text: &mut [u8]) -> usize
    requires { at + 22 ≤ length text.old }
    ensures { Appends (signed_ended n end) at result (mutable text) }
{
    let size = magnitude(n);
    if n < 0 {
        append(b"-", at, text);
        return append_number(size, end, at + 1, text);
    }
    append_number(size, end, at, text)
}

// What stands behind the number at index i, of n numbers: a blank, or the line's end.
fn separator(i: usize, n: usize) -> u8
    requires { i < n }
    ensures { result ≡ behind i n }
{
    if i + 1 == n {
        return b'\n';
    }
    b' '
}

// The numbers on one line, a blank between them: how many bytes it is. A text of fewer than 22 bytes for each number stays as it is, and the answer is 0.
pub fn show_row(numbers: &[i64], text: &mut [u8]) -> usize
    ensures { Shows (row_room numbers.now) (row_text numbers.now) result (mutable text) }
{
    let n = numbers.len();
    if text.len() / 22 < n {
        return 0;
    }
    let mut next = 0;
    for (i, number) in numbers.iter().enumerate() {
        let end = separator(i, n);
        next = append_signed(*number, end, next, text);
    }
    next
}

// `ok` or `refused N` on a line of its own, at a place of the text: the place after it.
fn append_outcome(n: u32, at: usize, text: &mut [u8]) -> usize
    requires { at + 29 ≤ length text.old }
    ensures { Appends (outcome_line n) at result (mutable text) }
{
    if n == 0 {
        append(b"ok\n", at, text);
        return at + 3;
    }
    append(b"refused ", at, text);
    append_number(long(n), b'\n', at + 8, text)
}

// A line for each outcome, from a place of the text on: the place after them.
fn append_outcomes(outcomes: &[u32], at: usize, text: &mut [u8]) -> usize
    requires { at + 29 * length outcomes.now ≤ length text.old }
    ensures { Appends (outcome_lines outcomes.now) at result (mutable text) }
{
    let mut next = at;
    for outcome in outcomes {
        next = append_outcome(*outcome, next, text);
    }
    next
}

fn hex_digit(n: u8) -> u8
    requires { n < 16 }
    ensures { result ≡ hex_digit n }
{
    if n < 10 {
        return 48 + n;
    }
    87 + n
}

// Whether a line ends behind the byte at index i, of n bytes.
fn ends_line(i: usize, n: usize) -> bool
    requires { i < n }
    ensures { result ≡ ends_line i n }
{
    if i % 32 == 31 {
        return true;
    }
    i + 1 == n
}

// A byte's two digits, and the line's end where it has one, at a place of the text: the place after them.
fn append_byte(b: u8, ends: bool, at: usize, text: &mut [u8]) -> usize
    requires { at + 3 ≤ length text.old }
    ensures { Appends (hex_byte b ends) at result (mutable text) }
{
    let digits = [hex_digit(b / 16), hex_digit(b % 16)];
    append(&digits, at, text);
    if ends {
        append(b"\n", at + 2, text);
        return at + 3;
    }
    at + 2
}

// Bytes in hexadecimal, from a place of the text on: the place after them.
fn append_hex(bytes: &[u8], at: usize, text: &mut [u8]) -> usize
    requires { at + 3 * length bytes.now ≤ length text.old }
    ensures { Appends (hex_lines bytes.now) at result (mutable text) }
{
    let n = bytes.len();
    let mut next = at;
    for (i, byte) in bytes.iter().enumerate() {
        let ends = ends_line(i, n);
        next = append_byte(*byte, ends, next, text);
    }
    next
}

// A line for each outcome, `bytes N`, and the bytes, 32 to a line: how long it is. In fewer than 27 bytes, 29 for each outcome and 3 for each byte: 0.
pub fn show_tile(outcomes: &[u32], bytes: &[u8], text: &mut [u8]) -> usize
    ensures { Shows (tile_room outcomes.now bytes.now) (tile_text outcomes.now bytes.now) result (mutable text) }
{
    let n = bytes.len();
    if text.len() < 27 {
        return 0;
    }
    let left = text.len() - 27;
    if left / 29 < outcomes.len() {
        return 0;
    }
    if (left - 29 * outcomes.len()) / 3 < n {
        return 0;
    }
    let head = append_outcomes(outcomes, 0, text);
    append(b"bytes ", head, text);
    let at = append_number(n as u64, b'\n', head + 6, text);
    append_hex(bytes, at, text)
}

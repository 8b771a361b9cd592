// For the programs that replay kept cases: a file of cases as numbers, its records, and answers printed. Each record begins with how many numbers follow
// in it. A number that is not there is 0, and a list that is cut short has what there is, so that a replay need not ask.
#![tactic(auto)]

ghost use Rattle.std.specs.Prelude.{◌≡◌, get_or, take};
ghost use Rattle.replay.specs.Records.{Past, body_of};
ghost use Rattle.replay.specs.Printing.{size_of, printed, words_printed, tile_printed};
ghost use Rattle.whole.specs.Twos.{signed32};
ghost use Rattle.refusal.specs.Refusals.{number_of};
ghost use Rattle.printed.specs.Printed.{refused_text, refused_room};
ghost use Rattle.printed.specs.Row.{row_text, row_room};
ghost use Rattle.io.specs.Counts.{IsPrefixLen};
ghost use Rattle.std.specs.Io.{ReadsAtMost};

use printed::{Text, first_bytes, first_words};
use refusal::Refusal;
use std::io::{ErrorKind, Write};
use std::rt::Files;
use std::{fs, io};

// The bytes of a file that can be opened and read. std takes a file's name as text.
fn bytes_of<R: Files>(rt: &R, path: &[u8], bytes: &mut [u8]) -> io::Result<usize>
    ensures { ReadsAtMost result bytes.new }
{
    match str::from_utf8(path) {
        Ok(name) => {
            let mut file = fs::open(rt, name)?;
            console::fill(&mut file, bytes)
        }
        Err(_) => Err(io::Error::from(ErrorKind::InvalidInput)),
    }
}

// A line on standard error of a file that cannot be read.
fn fail<R: Eprint>(rt: &R, path: &[u8], e: io::Error) {
    match str::from_utf8(path) {
        Ok(name) => {
            let _ = eprintln!(rt; "{name}: {e}");
        }
        Err(_) => {
            let _ = eprintln!(rt; "{e}");
        }
    }
}

// The bytes of a file; none, and a line on standard error, where it cannot be read. No contract can say what a file holds, so this one says only
// how many bytes there are at most.
pub fn read_file<R: Files + Eprint>(rt: &R, path: &[u8], bytes: &mut [u8]) -> usize
    ensures { IsPrefixLen result bytes.new }
{
    match bytes_of(rt, path, bytes) {
        Ok(n) => n,
        Err(e) => {
            fail(rt, path, e);
            return 0;
        }
    }
}

// The numbers of a file, none where it does not consist of numbers: no more than the list has room for.
pub fn load<R: Files + Eprint>(rt: &R, path: &[u8], out: &mut [u32]) -> usize
    ensures { IsPrefixLen result out.new }
{
    let mut bytes = [0u8; 65536];
    let n = read_file(rt, path, &mut bytes);
    match number_file::read_numbers(&bytes[..n], out) {
        Ok(k) => k,
        Err(_) => 0,
    }
}

// The place after the record that begins at `at`.
pub fn past(cases: &[u32], at: usize) -> usize
    ensures { Past cases.now at result }
{
    let end = cases.len();
    if end <= at {
        return end;
    }
    let follow = cases[at] as usize;
    if end - (at + 1) < follow {
        return end;
    }
    at + 1 + follow
}

// The case of the record that begins at `at`: the numbers behind the first.
pub fn body(cases: &[u32], at: usize) -> &[u32]
    ensures { result.now ≡ body_of cases.now at }
{
    let end = past(cases, at);
    if end <= at {
        return &cases[..0];
    }
    let from = at + 1;
    &cases[from..end]
}

// The number at a place.
pub fn number(list: &[u32], i: usize) -> u32
    ensures { result ≡ get_or list.now i 0 }
{
    if i < list.len() {
        return list[i];
    }
    0
}

// The number at a place, read as a signed one.
pub fn signed_at(list: &[u32], i: usize) -> i32
    ensures { result ≡ signed32 (get_or list.now i 0) }
{
    number::signed32(number(list, i))
}

// A size as a number of a row. No list is as long as 2^63, so -1 stands for a size that has no place there.
pub fn size(count: usize) -> i64
    ensures { result ≡ size_of count }
{
    if count < 9_223_372_036_854_775_808 {
        return count as i64;
    }
    -1
}

// Bytes go to standard output. Where it takes none nothing is told: what a replay printed is compared with what was kept.
fn print<R: Print>(rt: &R, bytes: &[u8]) {
    let _ = io::writer(rt).write_all(bytes);
}

// Each of these prints an answer and says how many bytes it is; no contract can say what is printed. What is too long for the text is not printed, and 0.
pub fn print_row<R: Print>(rt: &R, row: &[i64]) -> usize
    ensures { result ≡ printed (row_room row.now) (row_text row.now) 374 }
{
    let mut text = [0u8; 374];
    let n = printed::show_row(row, &mut text);
    print(rt, first_bytes(&text, n));
    n
}

pub fn print_refused<R: Print>(rt: &R, r: Refusal, accepted: usize) -> usize
    ensures { result ≡ printed refused_room (refused_text (number_of r) accepted) 53 }
{
    let mut text = [0u8; 53];
    let n = printed::show_refused(refusal::number(r), accepted, &mut text);
    print(rt, first_bytes(&text, n));
    n
}

// The first n words of a list.
pub fn print_words<R: Print>(rt: &R, words: &[u32], n: usize) -> usize
    ensures { result ≡ words_printed (take n words.now) }
{
    let mut text = [0u8; Text::WORDS];
    let k = printed::show_words(first_words(words, n), &mut text);
    print(rt, first_bytes(&text, k));
    k
}

// The first n outcomes and the first used bytes of a tile.
pub fn print_tile<R: Print>(rt: &R, outcomes: &[u32], n: usize, bytes: &[u8], used: usize) -> usize
    ensures { result ≡ tile_printed (take n outcomes.now) (take used bytes.now) }
{
    let mut text = [0u8; Text::TILE];
    let k = printed::show_tile(
        first_words(outcomes, n),
        first_bytes(bytes, used),
        &mut text,
    );
    print(rt, first_bytes(&text, k));
    k
}

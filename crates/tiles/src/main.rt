// The program: takes one tile script from standard input and prints its outcomes and the tile's bytes.
#![tactic(auto)]

ghost use Rattle.std.specs.Prelude.{[], ◌∷◌, ◌≤◌, length, take};
ghost use Rattle.promise.specs.Lent.{mutable};
ghost use Rattle.refusal.specs.Refusals.{number_of};
ghost use Rattle.printed.specs.Lending.{Shows, Tells};
ghost use Rattle.printed.specs.Tiles.{tile_text, tile_room};
ghost use Rattle.tiles.specs.Program.{tile_shown, Answers};

use printed::{Text, first_bytes, first_words};
use refusal::Refusal;
use std::io;
use std::io::Write;

// A refusal of the whole script, shown: one outcome and no bytes.
fn show_refusal(r: Refusal, text: &mut [u8]) -> usize
    ensures { Shows (tile_room (number_of r ∷ []) []) (tile_text (number_of r ∷ []) []) result (mutable text) }
{
    let outcomes = [refusal::number(r)];
    printed::show_tile(&outcomes, b"", text)
}

// So many outcomes and bytes, shown; ROOM where the text is too short for them.
fn show(outcomes: &[u32], n: usize, out: &[u8], used: usize, text: &mut [u8]) -> usize
    requires { 56 ≤ length text.old }
    ensures { Tells (tile_shown (length text.old) (take n outcomes.now) (take used out.now)) result (mutable text) }
{
    let os = first_words(outcomes, n);
    let bs = first_bytes(out, used);
    let k = printed::show_tile(os, bs, text);
    if k == 0 {
        return show_refusal(Refusal::Room, text);
    }
    k
}

// What the program prints for a file, at the front of `text`: how many bytes it is. The lists are the program's own, and large enough.
fn answer(
    file: &[u8],
    numbers: &mut [u32],
    outcomes: &mut [u32],
    keys: &mut [u32],
    values: &mut [u32],
    texts: &mut [u8],
    features: &mut [u32],
    names: &mut [u32],
    out: &mut [u8],
    text: &mut [u8],
) -> usize
    requires { 56 ≤ length text.old }
    ensures { Answers result file (mutable numbers) (mutable outcomes) (mutable keys) (mutable values) (mutable texts) (mutable features) (mutable names) (mutable out) (mutable text) }
{
    match number_file::read_numbers(file, numbers) {
        Err(r) => show_refusal(r, text),
        Ok(n) => {
            let script = first_words(numbers, n);
            match tile_run::run(
                file, script, outcomes, keys, values, texts, features, names, out,
            ) {
                Err(r) => show_refusal(r, text),
                Ok((k, used)) => show(outcomes, k, out, used, text),
            }
        }
    }
}

// A file may have 65,536 bytes, which are 16,384 numbers; one byte more is read, so that a longer file is seen. The lists hold what any such script makes:
// an operation takes a number at least, a tag four, creating and adding a layer four together. So there are at most 16,384 outcomes, 4,096 keys of two
// words, 4,096 values of three, 4,096 names of two, and texts of no more bytes than the file has; a record's words are at most twice the numbers that make
// it (opening takes three and the geometry, a record six and the geometry; a tag adds two), and a tile's bytes at most twice the script's (a geometry
// word takes four bytes there and at most five here). An outcome is given 29 bytes of text and a tile's byte 3: the text holds the answer of every script
// but those of more than about 15,000 operations, nearly all of one number, which are answered ROOM.
fn main(rt: HostRuntime) -> io::Result<()> {
    let mut file = [0u8; 65537];
    let n = console::fill(&mut rt.stdin(), &mut file)?;
    let mut numbers = [0u32; 16384];
    let mut outcomes = [0u32; 16385];
    let mut keys = [0u32; 8192];
    let mut values = [0u32; 12288];
    let mut texts = [0u8; 65536];
    let mut features = [0u32; 32768];
    let mut names = [0u32; 8192];
    let mut out = [0u8; 131_072];
    let mut text = [0u8; Text::TILE];
    let k = answer(
        &file[..n],
        &mut numbers,
        &mut outcomes,
        &mut keys,
        &mut values,
        &mut texts,
        &mut features,
        &mut names,
        &mut out,
        &mut text,
    );
    io::writer(&rt).write_all(&text[..k])
}

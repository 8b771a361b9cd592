// Replays tile scripts: prints for each script what the program `tiles` prints for it, its outcomes and the tile's bytes; then the key and value index of
// every accepted tag on a line.
#![tactic(auto)]

use replay::number;
use script::{Op, Part};
use std::rt::Files;
use tile::Tile;
use tile_run::hand::Hand;
use tile_run::performing::Work;

// The last two feature words of the layer at hand: those that a tag has added.
fn print_tag<R: Print>(rt: &R, h: Hand, features: &[u32]) {
    let Some(s) = h else {
        return;
    };
    let end = s.used.features;
    if end < 2 {
        return;
    }
    let row = [
        i64::from(number(features, end - 2)),
        i64::from(number(features, end - 1)),
    ];
    replay::print_row(rt, &row);
}

// An accepted tag's indices.
fn print_step<R: Print>(rt: &R, op: u32, outcome: u32, w: Work, features: &[u32]) {
    if op == Op::TAG && outcome == 0 {
        print_tag(rt, w.hand, features);
    }
}

// A script, run; the lists are as long as the program's.
fn print_outcomes<R: Print>(rt: &R, bytes: &[u8], numbers: &[u32]) {
    let mut outcomes = [0u32; 16385];
    let mut keys = [0u32; 8192];
    let mut values = [0u32; 12288];
    let mut texts = [0u8; 65536];
    let mut features = [0u32; 32768];
    let mut names = [0u32; 8192];
    let mut out = [0u8; 131_072];
    match tile_run::run(
        bytes,
        numbers,
        &mut outcomes,
        &mut keys,
        &mut values,
        &mut texts,
        &mut features,
        &mut names,
        &mut out,
    ) {
        Err(r) => {
            replay::print_refused(rt, r, 0);
        }
        Ok((n, used)) => {
            replay::print_tile(rt, &outcomes, n, &out, used);
        }
    }
}

// Its operations once more, one by one, since a tag's indices are seen only behind it.
fn print_tags<R: Print>(rt: &R, bytes: &[u8], numbers: &[u32]) {
    let mut keys = [0u32; 8192];
    let mut values = [0u32; 12288];
    let mut texts = [0u8; 65536];
    let mut features = [0u32; 32768];
    let mut names = [0u32; 8192];
    let mut out = [0u8; 131_072];
    let mut w = Work {
        tile: Tile::new(number(numbers, 0)),
        hand: None,
    };
    let mut at = 1;
    // Counted by hand: an operation takes as many numbers as it has, so the step differs from turn to turn.
    while at < numbers.len() {
        let Some((outcome, next, place)) = tile_run::advance(
            at,
            w,
            bytes,
            numbers,
            &mut keys,
            &mut values,
            &mut texts,
            &mut features,
            &mut names,
            &mut out,
        ) else {
            return;
        };
        print_step(rt, number(numbers, at), outcome, next, &features);
        w = next;
        at = place;
    }
}

// The file's bytes are those of its numbers, four to each.
fn print_all<R: Print>(rt: &R, bytes: &[u8], cases: &[u32]) {
    let mut at = 0;
    // Counted by hand: a case takes as many numbers as it has, so the step differs from turn to turn.
    while at < cases.len() {
        let numbers = replay::body(cases, at);
        let part = Part {
            start: at + 1,
            len: 4 * numbers.len(),
        };
        let file = script::text(bytes, part);
        print_outcomes(rt, file, numbers);
        print_tags(rt, file, numbers);
        at = replay::past(cases, at);
    }
}

fn replay_file<R: Files + Print + Eprint>(rt: &R, path: &[u8]) {
    let mut bytes = io::large_buffer();
    let mut cases = [0u32; 16384];
    let n = replay::read_file(rt, path, &mut bytes);
    let m = replay::load(rt, path, &mut cases);
    print_all(rt, &bytes[..n], &cases[..m]);
}

// The scripts that the Rust can be asked, and their neighbours; then those with strict layers, which it does not know.
fn main(rt: HostRuntime) {
    replay_file(&rt, b"tiles-1.bin");
    replay_file(&rt, b"tiles-2.bin");
}

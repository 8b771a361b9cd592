// Replays words. Prints for each number its word and the number read back from it; for each command its word, and the id and the count read back from it,
// or the refusal.
#![tactic(auto)]

use std::rt::Files;
use words::command::{Command, CommandInt};
use words::param::ParamInt;

fn print_param<R: Print>(rt: &R, n: i32) {
    let word = ParamInt { value: n }.encode();
    let back = ParamInt::decode(word).value;
    let row = [word as i64, number::signed_long(back)];
    replay::print_row(rt, &row);
}

fn print_word<R: Print>(rt: &R, word: u32) {
    match CommandInt::decode(word) {
        Ok(c) => {
            let row = [word as i64, c.id.number() as i64, c.count as i64];
            replay::print_row(rt, &row);
        }
        Err(r) => {
            replay::print_refused(rt, r, 0);
        }
    }
}

fn print_encoded<R: Print>(rt: &R, command: Command, count: u32) {
    match (CommandInt { id: command, count }).encode() {
        Ok(word) => print_word(rt, word),
        Err(r) => {
            replay::print_refused(rt, r, 0);
        }
    }
}

// The command is the one of the word that has this id and no count.
fn print_command<R: Print>(rt: &R, id: u32, count: u32) {
    match CommandInt::decode(id) {
        Ok(c) => print_encoded(rt, c.id, count),
        Err(r) => {
            replay::print_refused(rt, r, 0);
        }
    }
}

// A case of one number is a parameter, one of two is a command's id and count.
fn print_case<R: Print>(rt: &R, case: &[u32]) {
    if case.len() == 1 {
        print_param(rt, replay::signed_at(case, 0));
        return;
    }
    print_command(rt, replay::number(case, 0), replay::number(case, 1));
}

fn print_all<R: Print>(rt: &R, cases: &[u32]) {
    let mut at = 0;
    // No `for`: how far a turn goes on stands in its record.
    while at < cases.len() {
        print_case(rt, replay::body(cases, at));
        at = replay::past(cases, at);
    }
}

fn replay_file<R: Files + Print + Eprint>(rt: &R, path: &[u8]) {
    let mut cases = [0u32; 16384];
    let n = replay::load(rt, path, &mut cases);
    print_all(rt, &cases[..n]);
}

fn main(rt: HostRuntime) {
    replay_file(&rt, b"params-1.bin");
    replay_file(&rt, b"commands-1.bin");
}

// Replays jobs: prints for each job file what the program `job` prints for it, its words or its refusal.
#![tactic(auto)]

use std::rt::Files;

fn print_job<R: Print>(rt: &R, job: &[u32], words: &mut [u32]) {
    match job_file::encode_file(job, words) {
        Ok(used) => {
            replay::print_words(rt, words, used);
        }
        Err(e) => {
            replay::print_refused(rt, e.refusal, e.kept);
        }
    }
}

fn print_all<R: Print>(rt: &R, cases: &[u32], words: &mut [u32]) {
    let mut at = 0;
    // No `for`: how far a turn goes on stands in its record.
    while at < cases.len() {
        print_job(rt, replay::body(cases, at), words);
        at = replay::past(cases, at);
    }
}

// The list is as long as the program's.
fn replay_file<R: Files + Print + Eprint>(rt: &R, path: &[u8]) {
    let mut cases = [0u32; 16384];
    let n = replay::load(rt, path, &mut cases);
    let mut words = [0u32; 16384];
    print_all(rt, &cases[..n], &mut words);
}

fn main(rt: HostRuntime) {
    replay_file(&rt, b"jobs-1.bin");
    replay_file(&rt, b"jobs-2.bin");
}

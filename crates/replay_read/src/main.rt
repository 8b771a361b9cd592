// Replays readings of words: prints for each list of words how many vertices there are and then each vertex, its id, x and y, on a line; or the refusal
// and its place.
#![tactic(auto)]

use number::signed_long;

// So many vertices, three numbers each, as far as the list goes.
fn print_vertices<R: Print>(rt: &R, numbers: &[i32], vertices: usize) {
    for vertex in numbers.chunks_exact(3).take(vertices) {
        let row = [
            signed_long(vertex[0]),
            signed_long(vertex[1]),
            signed_long(vertex[2]),
        ];
        replay::print_row(rt, &row);
    }
}

fn print_reading<R: Print>(rt: &R, words: &[u32], out: &mut [i32]) {
    match decoder::decode(words, out) {
        Err(f) => {
            replay::print_refused(rt, f.refusal, f.place);
        }
        Ok(vertices) => {
            let row = [replay::size(vertices)];
            replay::print_row(rt, &row);
            print_vertices(rt, out, vertices);
        }
    }
}

// A case: the lent list's length, the words.
fn print_case<R: Print>(rt: &R, case: &[u32], out: &mut [i32]) {
    let room = replay::number(case, 0) as usize;
    if case.is_empty() || out.len() < room {
        return;
    }
    print_reading(rt, &case[1..], &mut out[..room]);
}

// A `while`: each turn goes on by a case of its own length.
fn print_all<R: Print>(rt: &R, cases: &[u32], out: &mut [i32]) {
    let mut at = 0;
    while at < cases.len() {
        print_case(rt, replay::body(cases, at), out);
        at = replay::past(cases, at);
    }
}

fn main(rt: HostRuntime) {
    let mut cases = [0u32; 16384];
    let n = replay::load(&rt, b"readings-1.bin", &mut cases);
    let mut out = [0i32; 1024];
    print_all(&rt, &cases[..n], &mut out);
}

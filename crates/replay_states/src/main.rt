// Replays the encoder's calls one by one: prints after each call its refusal, where it is refused, the whole state, and the words.
#![tactic(auto)]

use clip::{BBox, Pt};
use encoder::tally::Tally;
use encoder::{Drawn, GeomEncoder};
use number::signed_long;
use replay::{number, signed_at};

// A point of three numbers of a case, whose places are given: whether there is one, x and y.
fn stored(case: &[u32], there: usize, x: usize, y: usize) -> Option<Pt> {
    if number(case, there) == 0 {
        return None;
    }
    Some(Pt {
        x: signed_at(case, x),
        y: signed_at(case, y),
    })
}

fn print_point<R: Print>(rt: &R, p: Option<Pt>) {
    let row = match p {
        None => [0, 0, 0],
        Some(q) => [1, signed_long(q.x), signed_long(q.y)],
    };
    replay::print_row(rt, &row);
}

fn box_of(case: &[u32]) -> BBox {
    BBox {
        x_min: signed_at(case, 3),
        x_max: signed_at(case, 4),
        y_min: signed_at(case, 5),
        y_max: signed_at(case, 6),
    }
}

// The state that a case carries; one of zeros where it has no numbers. The Rust has no counts, so it has taken no points.
fn carried(case: &[u32]) -> GeomEncoder {
    GeomEncoder {
        tally: Tally::none(),
        kind: number(case, 2),
        bbox: box_of(case),
        xy_end: stored(case, 7, 8, 9),
        pt0: stored(case, 10, 11, 12),
        pt1: stored(case, 13, 14, 15),
        cmd_offset: number(case, 16) as usize,
        count: number(case, 17),
        used: number(case, 18) as usize,
    }
}

// A state in five rows: kind and box; the raw end; the point before last; the last point; the last command's place, the count and the used words.
fn print_state<R: Print>(rt: &R, q: GeomEncoder) {
    let b = q.bbox;
    let head = [
        q.kind as i64,
        signed_long(b.x_min),
        signed_long(b.x_max),
        signed_long(b.y_min),
        signed_long(b.y_max),
    ];
    replay::print_row(rt, &head);
    print_point(rt, q.xy_end);
    print_point(rt, q.pt0);
    print_point(rt, q.pt1);
    let figures = [
        replay::size(q.cmd_offset),
        q.count as i64,
        replay::size(q.used),
    ];
    replay::print_row(rt, &figures);
}

// The encoder that is made; a state of zeros where none is.
fn started<R: Print>(rt: &R, case: &[u32]) -> GeomEncoder {
    match GeomEncoder::new(number(case, 2), box_of(case)) {
        Ok(q) => q,
        Err(r) => {
            replay::print_refused(rt, r, 0);
            carried(&case[..0])
        }
    }
}

// The state that a call leaves.
fn drawn<R: Print>(rt: &R, d: Drawn) -> GeomEncoder {
    match d {
        Ok((q, _)) => q,
        Err(e) => {
            replay::print_refused(rt, e.refusal, 0);
            e.kept
        }
    }
}

// A case: 0 make an encoder, 1 add a point, 2 complete, 3 carry a state; the lent list's length; what the call is given.
fn call<R: Print>(rt: &R, case: &[u32], q: GeomEncoder, words: &mut [u32]) -> GeomEncoder {
    let op = number(case, 0);
    if op == 0 {
        return started(rt, case);
    }
    if op == 1 {
        return drawn(
            rt,
            q.add_point(signed_at(case, 2), signed_at(case, 3), words),
        );
    }
    if op == 2 {
        return drawn(rt, q.complete_geom(words));
    }
    carried(case)
}

fn print_call<R: Print>(rt: &R, case: &[u32], q: GeomEncoder, words: &mut [u32]) -> GeomEncoder {
    let room = number(case, 1) as usize;
    if words.len() < room {
        return q;
    }
    let next = call(rt, case, q, &mut words[..room]);
    print_state(rt, next);
    replay::print_words(rt, &words[..room], next.used);
    next
}

fn print_all<R: Print>(rt: &R, cases: &[u32], words: &mut [u32]) {
    let mut q = carried(&cases[..0]);
    let mut at = 0;
    // No `for`: how far a turn goes on stands in its record.
    while at < cases.len() {
        q = print_call(rt, replay::body(cases, at), q, words);
        at = replay::past(cases, at);
    }
}

fn main(rt: HostRuntime) {
    let mut cases = [0u32; 16384];
    let n = replay::load(&rt, b"states-1.bin", &mut cases);
    let mut words = [0u32; 1024];
    print_all(&rt, &cases[..n], &mut words);
}

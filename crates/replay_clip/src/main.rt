// Replays clips: prints for each segment and box the segment after the cuts, or the refusal.
#![tactic(auto)]

use clip::{BBox, Pt, Seg};
use number::signed_long;
use replay::signed_at;

// The segment of a case.
fn segment(case: &[u32]) -> Seg {
    Seg {
        p0: Pt {
            x: signed_at(case, 0),
            y: signed_at(case, 1),
        },
        p1: Pt {
            x: signed_at(case, 2),
            y: signed_at(case, 3),
        },
    }
}

// The box of a case.
fn box_of(case: &[u32]) -> BBox {
    BBox {
        x_min: signed_at(case, 4),
        x_max: signed_at(case, 5),
        y_min: signed_at(case, 6),
        y_max: signed_at(case, 7),
    }
}

fn print_segment<R: Print>(rt: &R, s: Seg) {
    let row = [
        signed_long(s.p0.x),
        signed_long(s.p0.y),
        signed_long(s.p1.x),
        signed_long(s.p1.y),
    ];
    replay::print_row(rt, &row);
}

fn print_case<R: Print>(rt: &R, case: &[u32]) {
    match clip::clip(segment(case), box_of(case)) {
        Ok(c) => print_segment(rt, c.seg),
        Err(r) => {
            replay::print_refused(rt, r, 0);
        }
    }
}

fn print_all<R: Print>(rt: &R, cases: &[u32]) {
    let mut at = 0;
    // No `for`: how far a turn goes on stands in its record.
    while at < cases.len() {
        print_case(rt, replay::body(cases, at));
        at = replay::past(cases, at);
    }
}

fn main(rt: HostRuntime) {
    let mut cases = [0u32; 16384];
    let n = replay::load(&rt, b"clips-1.bin", &mut cases);
    print_all(&rt, &cases[..n]);
}

// An encoder's state as C carries it: the numbers of `GeomEncoder`, each point that may be missing with a flag before it. What lies behind a flag of 0 is
// not looked at; a flag that is neither 0 nor 1 is refused as STATE.
ghost use Rattle.std.specs.Prelude.{◌≡◌};
ghost use Rattle.brinepost.specs.Carried.{point_of, point_to, are_flags, state_of, state_to, nothing};

use clip::{BBox, Pt};
use encoder::GeomEncoder;
use encoder::tally::Tally;

#[repr(C)]
#[derive(Clone, Copy)]
pub struct BpPoint {
    pub is_set: u32,
    pub x: i32,
    pub y: i32,
}

#[repr(C)]
#[derive(Clone, Copy)]
pub struct BpEncoder {
    pub kind: u32,
    pub count: u32,
    pub used: usize,
    pub cmd_offset: usize,
    pub x_min: i32,
    pub x_max: i32,
    pub y_min: i32,
    pub y_max: i32,
    pub xy_end: BpPoint,
    pub pt0: BpPoint,
    pub pt1: BpPoint,
    pub taken: u32, // the counts of the points since the state was fresh
    pub boundary: u32,
    pub skipped: u32,
    pub taken_out: u32,
}

fn point_of(p: BpPoint) -> Option<Pt>
    ensures { result ≡ point_of p }
{
    if p.is_set == 0 {
        return None;
    }
    Some(Pt { x: p.x, y: p.y })
}

fn point_to(m: Option<Pt>) -> BpPoint
    ensures { result ≡ point_to m }
{
    match m {
        None => BpPoint {
            is_set: 0,
            x: 0,
            y: 0,
        },
        Some(p) => BpPoint {
            is_set: 1,
            x: p.x,
            y: p.y,
        },
    }
}

// Whether each flag is 0 or 1.
pub(crate) fn are_flags(s: BpEncoder) -> bool
    ensures { result ≡ are_flags s }
{
    let a = s.xy_end;
    let b = s.pt0;
    let c = s.pt1;
    (a.is_set <= 1) & (b.is_set <= 1) & (c.is_set <= 1)
}

// The state that C carries.
pub(crate) fn state_of(s: BpEncoder) -> GeomEncoder
    ensures { result ≡ state_of s }
{
    let left = s.x_min;
    let right = s.x_max;
    let bottom = s.y_min;
    let top = s.y_max;
    let bbox = BBox {
        x_min: left,
        x_max: right,
        y_min: bottom,
        y_max: top,
    };
    let end = s.xy_end;
    let before = s.pt0;
    let last = s.pt1;
    let xy_end = point_of(end);
    let pt0 = point_of(before);
    let pt1 = point_of(last);
    let tally = Tally {
        taken: s.taken,
        boundary: s.boundary,
        skipped: s.skipped,
        taken_out: s.taken_out,
    };
    GeomEncoder {
        tally: tally,
        kind: s.kind,
        bbox: bbox,
        xy_end: xy_end,
        pt0: pt0,
        pt1: pt1,
        cmd_offset: s.cmd_offset,
        count: s.count,
        used: s.used,
    }
}

// A state as C is to carry it.
pub(crate) fn state_to(s: GeomEncoder) -> BpEncoder
    ensures { result ≡ state_to s }
{
    let bbox = s.bbox;
    let left = bbox.x_min;
    let right = bbox.x_max;
    let bottom = bbox.y_min;
    let top = bbox.y_max;
    let end = s.xy_end;
    let before = s.pt0;
    let last = s.pt1;
    let xy_end = point_to(end);
    let pt0 = point_to(before);
    let pt1 = point_to(last);
    let tally = s.tally;
    BpEncoder {
        kind: s.kind,
        count: s.count,
        used: s.used,
        cmd_offset: s.cmd_offset,
        x_min: left,
        x_max: right,
        y_min: bottom,
        y_max: top,
        xy_end: xy_end,
        pt0: pt0,
        pt1: pt1,
        taken: tally.taken,
        boundary: tally.boundary,
        skipped: tally.skipped,
        taken_out: tally.taken_out,
    }
}

// What a refused `new`, and a refused job, gives in place of a state: every number 0. No call takes it, since 0 is no kind.
pub(crate) fn no_state() -> BpEncoder
    ensures { result ≡ nothing }
{
    let p = BpPoint {
        is_set: 0,
        x: 0,
        y: 0,
    };
    BpEncoder {
        kind: 0,
        count: 0,
        used: 0,
        cmd_offset: 0,
        x_min: 0,
        x_max: 0,
        y_min: 0,
        y_max: 0,
        xy_end: p,
        pt0: p,
        pt1: p,
        taken: 0,
        boundary: 0,
        skipped: 0,
        taken_out: 0,
    }
}

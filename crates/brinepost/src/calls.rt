// The encoder call by call, from C: the state goes in and comes back by value.
ghost use Rattle.std.specs.Prelude.{◌≡◌};
ghost use Rattle.promise.specs.Answers.{Gives};
ghost use Rattle.encoder.specs.Answers.{said_started, started, said_drawn, edges_of};
ghost use Rattle.clip.specs.Numbers.{box_at};
ghost use Rattle.brinepost.specs.Drawing.{flat_started, flat_drawn, flagged, added_from, completed_from};

use crate::state::BpEncoder;
use clip::BBox;
use encoder::{Drawn, GeomEncoder};
use refusal::Refusal;

#[repr(C)]
#[derive(Clone, Copy)]
pub struct BpStarted {
    pub refusal: u32,
    pub state: BpEncoder,
}

#[repr(C)]
#[derive(Clone, Copy)]
pub struct BpDrawn {
    pub refusal: u32,
    pub words: usize, // how many are used
    pub state: BpEncoder,
    pub edge0: u32, // what became of each end of the segment that the point ends
    pub edge1: u32,
}

fn begun(r: Result<GeomEncoder, Refusal>) -> BpStarted
    ensures { result ≡ flat_started (said_started r) }
{
    match r {
        Ok(s) => BpStarted {
            refusal: 0,
            state: crate::state::state_to(s),
        },
        Err(k) => BpStarted {
            refusal: refusal::number(k),
            state: crate::state::no_state(),
        },
    }
}

// A refused call has given its state back, and C has it as it was given, whatever lay behind a flag of 0; it names no edge.
pub(crate) fn answered(given: BpEncoder, r: Drawn) -> BpDrawn
    ensures { result ≡ flat_drawn given (edges_of r) (said_drawn r) }
{
    match r {
        Ok((s, edges)) => BpDrawn {
            refusal: 0,
            words: s.used,
            state: crate::state::state_to(s),
            edge0: edges.first.number(),
            edge1: edges.second.number(),
        },
        Err(e) => refused(given, e.refusal),
    }
}

pub(crate) fn refused(given: BpEncoder, k: Refusal) -> BpDrawn
    ensures { result ≡ flagged given k }
{
    BpDrawn {
        refusal: refusal::number(k),
        words: 0,
        state: given,
        edge0: 0,
        edge1: 0,
    }
}

// KIND, BOX, else a fresh state.
#[unsafe(no_mangle)]
pub extern "C" fn bp_encoder_new(
    kind: u32,
    left: i32,
    right: i32,
    bottom: i32,
    top: i32,
) -> BpStarted
    ensures { result ≡ flat_started (started kind (box_at left right bottom top)) }
{
    let bbox = BBox {
        x_min: left,
        x_max: right,
        y_min: bottom,
        y_max: top,
    };
    begun(GeomEncoder::new(kind, bbox))
}

// How many points the part has so far.
#[unsafe(no_mangle)]
pub extern "C" fn bp_encoder_count(state: BpEncoder) -> u32
    ensures { result ≡ state.count }
{
    state.count
}

// How many words are used.
#[unsafe(no_mangle)]
pub extern "C" fn bp_encoder_len(state: BpEncoder) -> usize
    ensures { result ≡ state.used }
{
    state.used
}

// STATE, COORD, ROOM, else the point's words behind those that are used.
#[unsafe(no_mangle)]
pub extern "C" fn bp_encoder_add_point(
    given: BpEncoder,
    x: i32,
    y: i32,
    words: &mut [u32],
) -> BpDrawn
    ensures { Gives (added_from given x y words.old) result words.new }
{
    if !crate::state::are_flags(given) {
        return refused(given, Refusal::State);
    }
    let s = crate::state::state_of(given);
    let r = s.add_point(x, y, words);
    answered(given, r)
}

// STATE, EMPTY, ROOM, else the part's counts set and a polygon closed.
#[unsafe(no_mangle)]
pub extern "C" fn bp_encoder_complete_geom(given: BpEncoder, words: &mut [u32]) -> BpDrawn
    ensures { Gives (completed_from given words.old) result words.new }
{
    if !crate::state::are_flags(given) {
        return refused(given, Refusal::State);
    }
    let s = crate::state::state_of(given);
    let r = s.complete_geom(words);
    answered(given, r)
}

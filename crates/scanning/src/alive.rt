// Whether some bytes finish a state. The innermost message must have room for what is needed at least; and where it has one byte more than that, some varint
// must be left that can be written one byte longer, since no field has a single byte. No sum is made that could be too large: what is needed stands here
// without its first byte.
ghost use Rattle.std.specs.Prelude.{◌≡◌, suc, ◌≤◌, ◌||◌, ltb};
ghost use Rattle.scan.specs.Alive.{least as least_of, loose, is_type, least_body, need, slack, is_body, may as mayOf, fine, roomy, alive, SoundIn, Sound};

use crate::digit::{BEFORE_LAST, unit};
use messages::key::{Body, Follows, Kind, after_key};
use scan::{Phase, State, Where};
use wire::field::Field;

// A right key is below 2 to the 32nd, so that its number stands in its first bytes.
const KEY_BYTES: u32 = 5;

// ---- what a wire type asks for behind the key: the fewest bytes, whether one more will do, and whether it is one
fn least(wire: u64) -> u64
    ensures { result ≡ least_of wire }
{
    if wire == Field::FIXED64 {
        return 8;
    }
    if wire == Field::FIXED32 {
        return 4;
    }
    1
}

fn is_loose(wire: u64) -> bool
    ensures { result ≡ loose wire }
{
    if wire == Field::FIXED64 {
        return false;
    }
    if wire == Field::FIXED32 {
        return false;
    }
    true
}

fn is_type(wire: u64) -> bool
    ensures { result ≡ is_type wire }
{
    if wire == Field::FIXED64 {
        return true;
    }
    if wire == Field::FIXED32 {
        return true;
    }
    if wire == Field::VARINT {
        return true;
    }
    wire == Field::DELIMITED
}

// The least length that a body can still have, where i bytes of it are read and v is their value. No message has one byte.
fn least_body(body: Body, i: u32, v: u64) -> u64
    requires { i ≤ 9 }
    ensures { result ≡ least_body body i v }
{
    match body {
        Body::Any => v,
        Body::Varints => v,
        Body::Within(_) => {
            if v == 1 {
                let u = unit(i);
                return v + u;
            }
            v
        }
    }
}

// ---- the room of the innermost message
// A byte and so many more are needed; `spare` says whether one more will do.
fn has_room(more: u64, spare: bool, room: u64) -> bool
    ensures { result ≡ roomy (suc more) spare room }
{
    if room <= more {
        return false;
    }
    if spare {
        return true;
    }
    room - more != 2
}

fn key_has_room(i: u32, wire: u64, room: u64) -> bool
    ensures { result ≡ roomy (suc (least_of wire)) (ltb i 9 || loose wire) room }
{
    let more = least(wire);
    if i < BEFORE_LAST {
        return has_room(more, true, room);
    }
    let spare = is_loose(wire);
    has_room(more, spare, room)
}

fn is_roomy(phase: Phase, room: u64) -> bool
    requires { SoundIn phase }
    ensures { result ≡ roomy (need phase) (slack phase) room }
{
    match phase {
        Phase::Field => room != 1,
        Phase::Key(i, v) => key_has_room(i, v % 8, room),
        Phase::Number(i) => has_room(0, i < BEFORE_LAST, room),
        Phase::Lead(body, i, v) => {
            let more = least_body(body, i, v);
            has_room(more, i < BEFORE_LAST, room)
        }
        Phase::Skip(n) => has_room(n, false, room),
        Phase::Packed(n, _) => has_room(n, false, room),
    }
}

// ---- a body that is a message can stand only where messages nest
fn is_body(nests: bool, body: Body) -> bool
    ensures { result ≡ is_body nests body }
{
    match body {
        Body::Any => true,
        Body::Varints => true,
        Body::Within(_) => nests,
    }
}

fn may(nests: bool, f: Follows) -> bool
    ensures { result ≡ mayOf nests f }
{
    match f {
        Follows::Wrong => false,
        Follows::AVarint => true,
        Follows::Bytes(_) => true,
        Follows::ABody(body) => is_body(nests, body),
    }
}

// A key's wire type stands in its first byte. What follows it is known once its number cannot change any more.
fn is_fine(nests: bool, kind: Kind, phase: Phase) -> bool
    ensures { result ≡ fine nests kind phase }
{
    match phase {
        Phase::Field => true,
        Phase::Key(i, v) => {
            if i < KEY_BYTES {
                return is_type(v % 8);
            }
            let f = after_key(kind, v);
            may(nests, f)
        }
        Phase::Number(_) => true,
        Phase::Lead(body, _, _) => is_body(nests, body),
        Phase::Skip(_) => true,
        Phase::Packed(_, _) => true,
    }
}

pub(crate) fn is_alive(s: State) -> bool
    requires { Sound s }
    ensures { result ≡ alive s }
{
    match s {
        State::Lost => false,
        State::At(w, phase) => match w {
            Where::Outside => is_fine(true, Kind::Tile, phase),
            Where::One(k, n) => {
                let f = is_fine(true, k, phase);
                let r = is_roomy(phase, n);
                f & r
            }
            Where::Two(k, n, l, m) => {
                let f = is_fine(false, k, phase);
                let r = is_roomy(phase, n);
                f & r & (m != 1)
            }
        },
    }
}

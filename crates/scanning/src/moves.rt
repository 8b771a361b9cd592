// What a byte does to the phase of one message: it goes on with its field, begins the next one, or opens a message inside.
ghost use Rattle.std.specs.Prelude.{◌≡◌, ◌≤◌};
ghost use Rattle.scan.specs.Automaton.{passing as passing_of, packing as packingOf, begun as begunOf, following as followingOf, in_key, in_number, in_lead, in_packed, move as move_of};
ghost use Rattle.scan.specs.Alive.{SoundIn};

use crate::digit::next_digit;
use messages::key::{Body, Follows, Kind, after_key};
use scan::{Digit, Next, Phase};

// So many bytes to pass.
fn passing(n: u64) -> Phase
    ensures { result ≡ passing_of n }
{
    if n == 0 {
        return Phase::Field;
    }
    Phase::Skip(n - 1)
}

// So many bytes of varints.
fn packing(n: u64) -> Phase
    ensures { result ≡ packingOf n }
{
    if n == 0 {
        return Phase::Field;
    }
    Phase::Packed(n - 1, 0)
}

// A body whose length is read.
fn begun(body: Body, n: u64) -> Next
    ensures { result ≡ begunOf body n }
{
    match body {
        Body::Any => Next::On(passing(n)),
        Body::Varints => Next::On(packing(n)),
        Body::Within(kind) => Next::Opens(kind, n),
    }
}

// What follows a key.
fn following(f: Follows) -> Next
    ensures { result ≡ followingOf f }
{
    match f {
        Follows::Wrong => Next::Dead,
        Follows::AVarint => Next::On(Phase::Number(0)),
        Follows::Bytes(n) => Next::On(passing(n)),
        Follows::ABody(body) => Next::On(Phase::Lead(body, 0, 0)),
    }
}

// ---- a digit of a number, of a length, of a packed list, of a key, where i bytes of it are read
fn in_number(i: u32, d: Digit) -> Next
    requires { i ≤ 9 }
    ensures { result ≡ in_number i d }
{
    match d {
        Digit::Bad => Next::Dead,
        Digit::More(_) => Next::On(Phase::Number(i + 1)),
        Digit::Ends(_) => Next::On(Phase::Field),
    }
}

fn in_lead(body: Body, i: u32, d: Digit) -> Next
    requires { i ≤ 9 }
    ensures { result ≡ in_lead body i d }
{
    match d {
        Digit::Bad => Next::Dead,
        Digit::More(v) => Next::On(Phase::Lead(body, i + 1, v)),
        Digit::Ends(n) => begun(body, n),
    }
}

fn in_packed(n: u64, i: u32, d: Digit) -> Next
    requires { i ≤ 9 }
    ensures { result ≡ in_packed n i d }
{
    match d {
        Digit::Bad => Next::Dead,
        Digit::More(_) => {
            if n == 0 {
                return Next::Dead;
            }
            Next::On(Phase::Packed(n - 1, i + 1))
        }
        Digit::Ends(_) => Next::On(packing(n)),
    }
}

fn in_key(kind: Kind, i: u32, d: Digit) -> Next
    requires { i ≤ 9 }
    ensures { result ≡ in_key kind i d }
{
    match d {
        Digit::Bad => Next::Dead,
        Digit::More(v) => Next::On(Phase::Key(i + 1, v)),
        Digit::Ends(n) => {
            let f = after_key(kind, n);
            following(f)
        }
    }
}

// What a byte does to a phase of a message of that kind.
pub(crate) fn moved(kind: Kind, phase: Phase, b: u8) -> Next
    requires { SoundIn phase }
    ensures { result ≡ move_of kind phase b }
{
    match phase {
        Phase::Field => {
            let d = next_digit(0, 0, b);
            in_key(kind, 0, d)
        }
        Phase::Key(i, v) => {
            let d = next_digit(i, v, b);
            in_key(kind, i, d)
        }
        Phase::Number(i) => {
            let d = next_digit(i, 0, b);
            in_number(i, d)
        }
        Phase::Lead(body, i, v) => {
            let d = next_digit(i, v, b);
            in_lead(body, i, d)
        }
        Phase::Skip(n) => Next::On(passing(n)),
        Phase::Packed(n, i) => {
            let d = next_digit(i, 0, b);
            in_packed(n, i, d)
        }
    }
}

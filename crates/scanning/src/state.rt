// A byte for the whole state: the innermost message takes it, and has one byte less to come.
ghost use Rattle.std.specs.Prelude.{◌≡◌};
ghost use Rattle.scan.specs.Automaton.{emptied as emptiedOf, settled as settled_of, opened as opened_of, entered as entered_of, turn};
ghost use Rattle.scan.specs.Alive.{Sound};

use crate::moves::moved;
use messages::key::Kind;
use scan::{Next, Phase, State, Where};

// A message that has no bytes left, and no field begun, is shut.
fn emptied(w: Where) -> State
    ensures { result ≡ emptiedOf w }
{
    match w {
        Where::Outside => State::At(Where::Outside, Phase::Field),
        Where::One(k, n) => {
            if n == 0 {
                return State::At(Where::Outside, Phase::Field);
            }
            State::At(Where::One(k, n), Phase::Field)
        }
        Where::Two(k, n, l, m) => {
            if 0 < n {
                return State::At(Where::Two(k, n, l, m), Phase::Field);
            }
            if m == 0 {
                return State::At(Where::Outside, Phase::Field);
            }
            State::At(Where::One(l, m), Phase::Field)
        }
    }
}

fn settled(w: Where, phase: Phase) -> State
    ensures { result ≡ settled_of w phase }
{
    match phase {
        Phase::Field => emptied(w),
        _ => State::At(w, phase),
    }
}

// A message of that kind and length opens: it must fit into the one around it, and messages are three deep at most.
fn opened(w: Where, k: Kind, m: u64) -> State
    ensures { result ≡ opened_of w k m }
{
    match w {
        Where::Outside => emptied(Where::One(k, m)),
        Where::One(l, n) => {
            if n < m {
                return State::Lost;
            }
            emptied(Where::Two(k, m, l, n - m))
        }
        Where::Two(_, _, _, _) => State::Lost,
    }
}

fn entered(w: Where, x: Next) -> State
    ensures { result ≡ entered_of w x }
{
    match x {
        Next::Dead => State::Lost,
        Next::On(phase) => settled(w, phase),
        Next::Opens(k, m) => opened(w, k, m),
    }
}

// A byte, before it is asked whether the state is alive.
pub(crate) fn turned(s: State, b: u8) -> State
    requires { Sound s }
    ensures { result ≡ turn s b }
{
    match s {
        State::Lost => State::Lost,
        State::At(w, phase) => match w {
            Where::Outside => {
                let x = moved(Kind::Tile, phase, b);
                entered(Where::Outside, x)
            }
            Where::One(k, n) => {
                if n == 0 {
                    return State::Lost;
                }
                let x = moved(k, phase, b);
                entered(Where::One(k, n - 1), x)
            }
            Where::Two(k, n, l, m) => {
                if n == 0 {
                    return State::Lost;
                }
                let x = moved(k, phase, b);
                entered(Where::Two(k, n - 1, l, m), x)
            }
        },
    }
}

// The table of refusals, document 01's and the later requests' (in the Rust: error.rs), and how a refusal's place travels. A later request adds its row in
// two places of this crate, here and in specs/Refusals.antt.
#![tactic(auto)]

ghost use Rattle.std.specs.Prelude.{◌≡◌};
ghost use Rattle.refusal.specs.Refusals.{number_of};

#[derive(Clone, Copy)]
pub enum Refusal {
    Job,
    Kind,
    Box,
    State,
    Coord,
    Empty,
    Room,
    Command,
    Step,
    Text,
    Turn,
    Extent,
    Name,
    Wire,
    Count,
    NoParams,
    CutParams,
    Utf8,
    Again,
}

// A refusal and where it was met, for the answers that tell a place; it is 0 where there is none. A variant that carries the place would make every
// answer larger, those that never tell one too.
#[derive(Clone, Copy)]
pub struct Fault {
    pub refusal: Refusal,
    pub place: usize,
}

// A refusal, and what the call leaves with its caller: the state as it was given, or what the accepted calls of a whole job made.
#[derive(Clone, Copy)]
pub struct Refused<T> {
    pub refusal: Refusal,
    pub kept: T,
}

// The number that the table gives a refusal. Nobody has 9: it was CUT, before request (iii) told the two cuts apart.
pub fn number(r: Refusal) -> u32
    ensures { result ≡ number_of r }
{
    match r {
        Refusal::Job => 1,
        Refusal::Kind => 2,
        Refusal::Box => 3,
        Refusal::State => 4,
        Refusal::Coord => 5,
        Refusal::Empty => 6,
        Refusal::Room => 7,
        Refusal::Command => 8,
        Refusal::Step => 10,
        Refusal::Text => 11,
        Refusal::Turn => 12,
        Refusal::Extent => 13,
        Refusal::Name => 14,
        Refusal::Wire => 15,
        Refusal::Count => 16,
        Refusal::NoParams => 17,
        Refusal::CutParams => 18,
        Refusal::Utf8 => 22,
        Refusal::Again => 23,
    }
}

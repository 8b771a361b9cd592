// The automaton that reads a tile byte by byte: its states, shared by the code and the definitions. Specs say what a byte does and which states some bytes
// finish; proofs say that this gives the place of a fault.
#![tactic(auto)]

use messages::key::{Body, Kind};

// A byte of a varint that is under way.
#[derive(Clone, Copy)]
pub enum Digit {
    // An eleventh byte would come, or a 65th bit.
    Bad,
    // The value so far.
    More(u64),
    // The number.
    Ends(u64),
}

#[derive(Clone, Copy)]
pub enum Phase {
    // Before a key, or at the end.
    Field,
    // So many bytes of a key are read, and their value.
    Key(u32, u64),
    // So many bytes of a number are read.
    Number(u32),
    // So many bytes of a body's length are read, and their value.
    Lead(Body, u32, u64),
    // One byte and so many more to pass.
    Skip(u64),
    // One byte and so many more of varints; so many bytes of the one at hand are read.
    Packed(u64, u32),
}

// What a byte does to a phase.
#[derive(Clone, Copy)]
pub enum Next {
    Dead,
    On(Phase),
    // A message of that kind and length begins.
    Opens(Kind, u64),
}

#[derive(Clone, Copy)]
pub enum Where {
    Outside,
    // The bytes left in the innermost message.
    One(Kind, u64),
    // The same, and those behind it in the message around it.
    Two(Kind, u64, Kind, u64),
}

// An enum of its own and no Option: the definitions of the automaton speak of a place and a phase, and Lost is a state too.
#[derive(Clone, Copy)]
pub enum State {
    Lost,
    At(Where, Phase),
}

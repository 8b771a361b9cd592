// Request (i): whether some bytes are a good tile, and the place of the fault where they are not. The bytes go one by one through the automaton of `scan`;
// the place is the first byte after which its state is not alive any more.
#![tactic(auto)]

mod digit; // a byte of a varint
mod moves; // a byte in one message
mod state; // a byte in the messages around it
mod alive; // whether some bytes finish a state
pub mod place; // the bytes of a tile

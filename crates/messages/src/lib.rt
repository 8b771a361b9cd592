// Request (i) of document 02: what a good tile is and what it says, in PB's and MVT's own terms (specs), and one field of a message read where it stands.
#![tactic(auto)]

pub mod key; // what follows a field's key
pub mod numbers; // a varint where it stands
pub mod field; // a field where it stands

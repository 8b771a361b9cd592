// Layers and tiles in the C interface: `rt lib brinepost_tiles` makes the archive, include/brinepost.h says in C what stands here. Each exported
// function takes any numbers and lists, calls one proved function, and answers a struct whose first number is the refusal, 0 where the call is accepted.
#![tactic(auto)]

pub mod carried; // a layer and a tile as C carries them
pub mod answers; // the structs of the answers
pub mod layers; // the calls that change a layer
pub mod tag_calls; // a tag of each kind of value
pub mod asking; // what a layer can be asked
pub mod tiles; // the calls on a tile
pub mod interface; // the number of the interface

// The C interface: `rt lib brinepost` makes the archive, include/brinepost.h says in C what stands here. Each exported function takes any numbers and
// lists, calls one proved function, and answers a struct whose first number is the refusal, 0 where the call is accepted. A module holds one idea; layers
// and tiles are crate `brinepost_tiles`, an archive of its own.
#![tactic(auto)]

pub mod segment; // one segment cut at a box
pub mod work; // a whole job
pub mod edged; // a whole job with its edges
pub mod finished; // a whole job with the state that it ends in
pub mod vertices; // words to vertices
pub mod state; // an encoder's state as C carries it
pub mod calls; // the encoder call by call
pub mod surveyed; // surveyed points: doubles, mapped and put on the grid
pub mod interface; // the number of the interface

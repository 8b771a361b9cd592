// Reading tiles, for C: `rt lib brinepost_reader` makes an archive of its own, include/brinepost.h says in C what stands here. Each exported function
// takes any bytes and any places, calls one proved function of `tile_check` or `reader`, and answers a struct whose first number is the refusal, 0 where
// there is none; WIRE tells the place of the tile's fault beside it. Names, keys and texts are told as the place where they start and how long they are.
#![tactic(auto)]

pub mod opened; // whether a tile is good
pub mod layers; // the next layer of a tile
pub mod features; // the next feature of a layer
pub mod entries; // the next key and the next value of a layer
pub mod feature_words; // a feature's tags and geometry
pub mod interface; // the number of the interface

// Request (i) of document 02: a reader of tile bytes. Each call reads what stands at a place: the head of the next layer, of its next feature, its next key or
// value, and the numbers of a feature's tags and geometry into a lent list. Names, keys and texts are handed out as the part of the caller's bytes where they
// stand. A call takes any bytes and any places: where it cannot read, it says WIRE with the tile's fault, or STATE where the tile is good and the place is no
// field's.
#![tactic(auto)]

pub mod reader; // a reader that stands on the caller's bytes and remembers how far it has come
pub mod layers; // the next layer
pub mod features; // the next feature of a layer
pub mod entries; // the next key and the next value of a layer
pub mod into; // a feature's tags and geometry
pub mod parts; // a part of the bytes
mod find; // the next field with a key
mod packed; // the numbers of a packed list
mod blame; // why a call could not read
mod cause; // what keeps a call from its answer

// Document 01, "Tile bytes": the bytes of the wire as PB writes them and the fields that MVT has, which a writer and a reader of tiles share (in the Rust:
// prost). What every writer of bytes promises is specs/Puts: it lays its bytes at the front of the lent list and answers how many they are; where they do not
// all fit it writes nothing and answers zero.
#![tactic(auto)]

pub mod varint; // numbers of one to ten bytes
pub mod sint; // a sint's zigzag
pub mod field; // Field: MVT's numbers, PB's wire types
pub mod head; // what a field begins with, and a field that is a number
pub mod run; // bytes as they are, and a field of them
pub mod fixed; // four and eight bytes, and fields of them
pub mod packed; // lists of numbers in one field

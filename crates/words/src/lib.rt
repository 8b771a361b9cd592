// Document 01, "Words": what one 32-bit word of a geometry is (in the Rust: the first part of encoder.rs).
#![tactic(auto)]

pub mod command; // CommandInt: a command and how often it is repeated
pub mod param; // ParamInt: one step along an axis
pub mod geometry; // Geometry: its kind, and how many words it may have

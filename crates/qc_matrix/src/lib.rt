//! The base matrix of a quasi-cyclic code: its test, its layers, and the check rows that a word fails. It knows
//! neither the encoder nor the decoder.
#![tactic(auto)]

mod checks;
mod code;
mod entries;
mod fault;
mod layers;

pub use code::Code;
pub use fault::CodeFault;

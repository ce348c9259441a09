//! The decoder of a quasi-cyclic code: it iterates over the layers until the hard decision is a codeword. It knows no
//! page, no sense and no ladder.
#![tactic(auto)]

mod decision;
mod decoder;
mod iteration;
mod lanes;
mod outcome;
mod search;

pub use decoder::Decoder;
pub use lanes::Lanes;
pub use outcome::Outcome;

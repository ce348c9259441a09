//! Read retry as a running state: which page to sense next and at which level, and what came of it.
//! It knows no die, no history and no code.
#![tactic(auto)]

mod ask;
mod best;
mod codeword;
mod decode;
mod found;
mod ladder;
mod ladder_laws;
mod part;
mod place_work;
mod step;

pub use ask::{Answer, Ask};
pub use decode::Decode;
pub use ladder::Ladder;
pub use ladder_laws::{codings_are_of_decoders, ladders_stand, runs_are_ladders};

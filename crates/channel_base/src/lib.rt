//! What a channel begins with, from the head of its image: with given superblocks, rows and sum, or blank. It knows no die
//! and reads nothing.
#![tactic(auto)]

mod base;
mod blank;

pub use base::{base_of, is_listed_bad};
pub use blank::blank_base;

//! The states of a channel's superblocks, the next slot, and how much room there is. It knows no die, no page map and
//! no history.
#![tactic(auto)]

mod blocks;
mod room;
mod states;

pub use blocks::Blocks;

//! The dies of one channel, driven by command cycles, and the running sum of its open stripe. It knows no history and no
//! page map, and decides nothing: what may be programmed and erased is its callers' to know.
#![tactic(auto)]

mod dies;
mod ends;
mod erasing;
mod one_die;
mod programming;

pub use dies::Dies;
pub use ends::{EraseEnd, ProgramEnd};

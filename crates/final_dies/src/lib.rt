//! What the dies of a run hold and count at its end. It has no code that runs: each law is the contract of a function that does
//! nothing.
#![tactic(auto)]

mod holding;

pub use holding::fitting_dies_hold;

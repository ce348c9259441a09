//! What a channel has may be saved, so that it is read again: contents that are made of a start have a spelling, and its base is
//! theirs. What a channel has at the end of a run is a start, too. It has no code that runs: each law is the contract of a
//! function that does nothing.
#![tactic(auto)]

mod ends;

pub use ends::starts_are_saved;

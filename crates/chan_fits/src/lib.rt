//! What the dies of a channel hold: that dies which change as the entries of a history say go on holding what its past says.
//! It has no code that runs: each law is the contract of a function that does nothing.
#![tactic(auto)]

mod fit_laws;

pub use fit_laws::{dies_fit_after_entry, dies_fit_their_start, due_after_entry, pasts_tell_dies};

//! What a run began with may be saved, where an image told it: so the image that its drive is saved as is read again. It has no
//! code that runs: each law is the contract of a function that does nothing. It knows no file, and no call of a die.
#![tactic(auto)]

mod laws;

pub use laws::{begun_runs_are_savable, saved_runs_are_read_again};

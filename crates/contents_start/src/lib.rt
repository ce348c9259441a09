//! With what an image tells of a channel the channel may begin: contents that are accepted make a start, and a blank image's
//! are accepted. It has no code that runs: each law is the contract of a function that does nothing.
#![tactic(auto)]

mod starts;

pub use starts::{blank_contents_are_saved, contents_make_starts};

//! How many rounds of collection a write makes whose caller is alone on its channel, as `collector` makes them. It has no code
//! that runs: each law is the contract of a function that does nothing but bring in the laws that its proof needs.
#![tactic(auto)]

mod writes;

pub use writes::alone_writes_make_few_rounds;

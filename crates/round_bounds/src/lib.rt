//! How many rounds of collection a write makes that is served alone: a bound by the superblocks that aren't bad before it, and
//! one by those that turn bad. It has no code that runs: each law is the contract of a function that does nothing. It knows no
//! image, no text and no caller.
#![tactic(auto)]

mod examples;
mod writes;

pub use examples::four_rounds;
pub use writes::{rounds_end_once, writes_make_few_rounds};

//! Tests of what runs print and of histories read back, against texts written by hand; and examples of counted replies, as the
//! contract of a function that does nothing.
#![tactic(auto)]

mod counted_replies;
#[cfg(test)]
mod printing;
#[cfg(test)]
mod reading;
#[cfg(test)]
mod small_runs;

pub use counted_replies::example_counted_replies;

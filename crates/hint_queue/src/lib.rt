//! The queue of pages that asked for a refresh: as the serial command keeps it, and as threads share it. It knows
//! neither the reads that ask nor the drains that take.
#![tactic(auto)]

mod counts;
mod hint_list;
mod hint_pass;
mod hints;
mod law;
mod steps;
mod view;

pub use hint_list::HintList;
pub use hint_pass::HintPass;
pub use hints::Hints;

#[cfg(test)]
mod tests;

//! A simulated die that obeys the rules on cells and weak blocks, and a wrapper of any die that fails at listed calls.
//! It knows no channel, no superblock and no page map.
#![tactic(auto)]

mod listed_calls;
mod listed_faults;
mod mounted;
mod sim_die;
mod store;
#[cfg(test)]
mod tests;
mod words;

pub use listed_faults::ListedFaults;
pub use sim_die::SimDie;

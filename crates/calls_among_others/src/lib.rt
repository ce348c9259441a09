//! Laws of whole calls among the calls of other actors: what a caller adds to a channel is what calls in order ask of its call,
//! and its reply is that of the call's own entries. It has no code that runs: each law is the contract of a function that does
//! nothing. It knows no thread, no lock and no trace.
#![tactic(auto)]

mod actors;
mod hosts;
mod parts;
mod steps;
mod two_actors;
mod whole;

pub use actors::{calls_among_are_asked, each_actor_is_known, no_actor_falls};
pub use hosts::{ages_among_are_ages, reads_among_are_reads, trims_among_are_trims};
pub use parts::{copies_among_are_copies, refreshes_among_are_refreshes, rounds_among_are_rounds};
pub use steps::{pasts_are_late, steps_among_are_all, steps_among_join, steps_together_are_among};
pub use two_actors::two_actors_meet_premises;
pub use whole::{
    collects_among_are_collects, refresh_calls_among_are_refreshes, writes_among_are_writes,
};

//! Whole runs of one channel and whole calls, worked out, and what just misses: which calls are in order and which replies they
//! have, which steps are refreshes, drains and collects, which reads leave a hint, which counts of faults fit, and which picks
//! follow a view. It has no code that runs: each example is the contract of a function that does nothing. It knows no text, no
//! image and no die.
#![tactic(auto)]

mod collect_examples;
mod count_examples;
mod drain_examples;
mod hint_examples;
mod refresh_examples;
mod run_examples;
mod view_examples;

pub use collect_examples::{
    example_collect_ends, example_collects, example_no_collects, example_notes, noted_histories,
};
pub use count_examples::{example_counts, example_no_counts};
pub use drain_examples::{example_drains, example_no_drains};
pub use hint_examples::{example_hints, example_queue};
pub use refresh_examples::{example_no_refreshes, example_refreshes, lost_page};
pub use run_examples::{
    begun_call, run_on_a_worn_channel, run_with_a_collect, run_with_a_collection, run_with_a_drain,
    run_with_a_fault, run_with_a_weak_die, run_with_an_idle_collect, run_with_another_pick,
    runs_that_just_miss,
};
pub use view_examples::{followed_policies, unfit_pick};

//! What of a serial run is decided: its hints are taken in order, and the superblocks picked and the failed die calls decide
//! all else, also where a history's limit stops it; and no look is open there. It has no code that runs: each law, and each
//! example of a run that stops, is the contract of a function that does nothing.
#![tactic(auto)]

mod endings;
mod hints;
mod looks;
mod output;
mod stop_examples;

pub use endings::{
    choices_decide_endings, choices_decide_stops, choices_decide_whether_it_stops,
    inputs_decide_endings, views_decide_endings,
};
pub use hints::{hints_are_taken_in_order, serial_hints_are_exact, stopped_hints_are_exact};
pub use looks::{serial_stops_leave_looks, stopped_calls_are_in_order, stopped_runs_hold};
pub use output::{
    choices_decide_output, choices_decide_runs, inputs_decide_output, views_decide_output,
};
pub use stop_examples::{
    example_just_whole, example_other_choice, example_stopped_run, example_stops,
};

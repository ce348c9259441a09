//! What holds of a race: of a run whose actors' calls were made among each other, in channels that stand behind locks. It has
//! no code that runs: each law is the contract of a function that does nothing. It knows no thread, no lock and no steps of
//! a call.
#![tactic(auto)]

mod ends;
mod headline;
mod hints;

pub use ends::stopped_races_are_not_whole;
pub use headline::{
    ordered_races_hold, rooms_are_found_in_turns, runs_and_races_share_their_statement,
};
pub use hints::{
    drained_pages_were_hinted, drops_met_a_full_queue, empty_queues_were_drained, hints_add_up,
};

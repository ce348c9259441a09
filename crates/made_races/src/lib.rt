//! That the statement on a race holds where each actor did its part: what an actor's loop and the close of each channel's lock
//! have to give, and what follows. It has no code that runs: each law is the contract of a function that does nothing. It knows
//! no thread and no way in which replies come back from one.
#![tactic(auto)]

mod ended;
mod made;
mod seen;

pub use ended::{answered_races_are_whole, stops_end_races};
pub use made::{actors_find_all_room, made_calls_tell_hints, made_races_hold};
pub use seen::{begun_drains_take_few, histories_go_on_from_what_was_seen, what_was_made_stays};

//! Laws of whole races: what the calls of all actors come to on all channels, where each was made among those of others. It
//! has no code that runs: each law is the contract of a function that does nothing. It knows no thread, no lock and no
//! trace's text.
#![tactic(auto)]

mod drains;
mod races;
mod replies;
mod stops;
mod two_actors_race;

pub use drains::{drains_among_are_drains, drains_take_few, refreshed_pages_are_drained};
pub use races::{asked_actors_are_so_far, races_are_in_order, races_made_are_in_order};
pub use replies::{races_have_replies, whole_races_are_in_order};
pub use stops::{
    ages_stop_begun, begun_actors_are_so_far, collects_stop_begun, drains_stop_begun,
    reads_stop_begun, refreshes_stop_begun, trims_stop_begun, writes_stop_begun,
};
pub use two_actors_race::two_actors_race_meets_premises;

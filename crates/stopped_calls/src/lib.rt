//! Where a call among others stopped for which its channel's history had no room: what its actor had seen then shows it. It
//! has no code that runs: each law is the contract of a function that does nothing. It knows no thread and no lock.
#![tactic(auto)]

mod stops;

pub use stops::{
    ages_stop_without_room, collects_stop_without_room, reads_stop_without_room,
    refreshes_stop_without_room, trims_stop_without_room, writes_stop_without_room,
};

//! Laws of every lawful history of a channel, from every start that an image may give: what an open look holds fast, that no
//! copy undoes a write, and when a channel stays neither worn nor full. It has no code that runs: each law is the contract of
//! a function that does nothing. It knows no image, no text and no order in which calls are served.
#![tactic(auto)]

mod examples;
mod open_looks;
mod reserve;
mod room;

pub use examples::{blank_channel, lost_reserve};
pub use open_looks::{open_looks_hold_fast, stale_copies_leave_rows};
pub use reserve::{copies_empty_victims, reserve_stays, victims_can_be_emptied};
pub use room::{blank_channels_take_writes, live_pages_fit, never_full};

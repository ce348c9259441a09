//! Calls that are served one after the other are calls in order, and each has just one reply, for each verb. The crate has no
//! code that runs: each law is the contract of a function that does nothing.
#![tactic(auto)]

mod order;
mod replies;

pub use order::{
    serial_calls_are_in_order, serial_calls_leave_looks, serial_stops_are_in_order,
    served_fronts_are_in_order,
};
pub use replies::{serial_calls_have_one_reply, serial_replies_stay, serial_stops_have_one_reply};

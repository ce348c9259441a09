//! Whole calls of one channel: a read with its ladder of retries, a write, and a copy of a page. A
//! caller makes them over the steps of a channel, alone or among others. It knows no trace, and makes
//! no room for a write that finds none.
#![tactic(auto)]

mod alone;
mod call_laws;
mod climb;
mod copy_reply;
mod encoding;
mod gate;
mod page_decoder;
mod read_reply;
mod steps;
mod worker;

pub use alone::Alone;
pub use call_laws::{copies_alone_are_copies, copies_alone_are_refreshes, reads_alone_are_reads};
pub use copy_reply::CopyReply;
pub use gate::{Gate, Moment, OpenGate, Point};
pub use read_reply::ReadReply;
pub use steps::Steps;
pub use worker::Worker;

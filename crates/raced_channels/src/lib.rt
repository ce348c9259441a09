//! The channels of a drive behind locks. They begin with what an image tells of them, each with the start for which it stands,
//! and each has a pass for each actor: the passes of an actor are those of its number, one of each channel. Once all passes
//! are back, the channels are taken out of their locks. It knows no call, and starts no thread.
#![tactic(auto)]

mod beginning;
mod columns;
mod locking;

pub use beginning::begin_traced;
pub use columns::columns_of;
pub use locking::{Locked, close_locks, lock_channels};

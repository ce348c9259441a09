//! The channels of a blank drive: they begin as the head of an image tells, each with its dies and its policy, and give their
//! dies, histories and bases back at the end. It knows no call of a host.
#![tactic(auto)]

mod beginning;
mod ending;

pub use beginning::{begin_channels, mount_drive};
pub use ending::{Ended, end_channels};

//! The channels of a drive begin with what an image tells of them, once that was loaded into its dies: each with its base, its
//! dies and its policy. It reads no image, and knows no call of a host.
#![tactic(auto)]

mod beginning;
mod laws;

pub use beginning::begin_channels;
pub use laws::{contents_may_begin, dies_stay_mounted, saved_serials_are_small};

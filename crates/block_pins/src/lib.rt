//! The open looks of a channel, which pin the superblocks that they stand in. It knows neither the rows nor the
//! history from which they come.
#![tactic(auto)]

mod pins;

pub use pins::Pins;

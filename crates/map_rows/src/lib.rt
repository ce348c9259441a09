//! The page map of a channel: what each row holds, and which slots are live. It knows neither what a superblock is
//! used for nor the history of the channel.
#![tactic(auto)]

mod rows;

pub use rows::Rows;

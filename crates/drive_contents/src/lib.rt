//! What an image tells of the channels of a drive is read, one channel after the other: their bases, and their pages, which are
//! loaded into the dies. Of a blank image nothing is read. It knows no history.
#![tactic(auto)]

mod contents;
mod loading;

pub use contents::load_contents;

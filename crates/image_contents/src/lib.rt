//! The contents of an image, read from a source: the superblocks of a channel, whose pages are loaded into its dies, and its
//! page map. It knows no command cycle and no history.
#![tactic(auto)]

mod block;
mod blocks;
mod channel;
mod counts;
mod levels;
mod named;
mod pages;
mod rows;
mod states;
mod sum;
mod work;

pub use channel::read_channel;
pub use work::PageWork;

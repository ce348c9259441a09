//! The contents of an image, written to a sink: the superblocks of a channel, whose levels are copied from its dies page by
//! page, and its page map. It knows no command cycle and no history.
#![tactic(auto)]

mod block;
mod channel;
mod dies;
mod front;
mod levels;
mod pages;
mod put;
mod rows;
mod stop;
mod work;

pub use channel::write_channel;
pub use stop::WriteStop;
pub use work::PageWork;

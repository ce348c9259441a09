//! That a channel of a blank image without weak blocks takes writes until a call of a die fails: the rows of an image fit
//! beside its factory bad superblocks. It has no code that runs: each law is the contract of a function that does nothing.
#![tactic(auto)]

mod room;

pub use room::blank_images_take_writes;

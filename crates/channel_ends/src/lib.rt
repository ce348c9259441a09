//! What a channel has at its end, as the start of the next session: it is one, and may be saved, where no block tells more pages
//! than it has; and the image that it is saved as is what its past says. The only code that runs asks dies for the numbers of their
//! programmed pages; each law is the contract of a function that does nothing.
#![tactic(auto)]

mod counts;
mod ends;

pub use counts::count_pages;
pub use ends::{
    ended_channels_hold_their_images, ended_channels_start_again, ended_runs_are_read_again,
};

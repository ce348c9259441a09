//! Whole calls of a caller that is alone on a channel, with their replies: their entries stand together, and a write and a
//! collect make the rounds that they need. It knows no die, and nothing of other channels.
#![tactic(auto)]

mod changing;
mod collecting;
mod reading;
mod refreshing;
mod writing;

pub use changing::{age, trim};
pub use collecting::collect;
pub use reading::read;
pub use refreshing::refresh;
pub use writing::write;

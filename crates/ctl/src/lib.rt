//! Serves the calls of a trace, one after the other: each on its channel, and a drain page by page on the channels of its
//! hints. It knows no text, and nothing of the run that a call belongs to.
#![tactic(auto)]

mod calling;
mod content;
mod draining;
mod serving;

pub use serving::{is_hint, serve_one};

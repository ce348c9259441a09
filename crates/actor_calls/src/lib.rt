//! The calls of one actor of a drive whose channels stand behind locks: each is served on its channel among the calls of
//! other actors, and a drain page by page on the channels of its hints. It makes no thread, and knows no text.
#![tactic(auto)]

mod acting;
mod calling;
mod content;
mod copying;
mod draining;
mod hinting;
mod reading;
mod replying;
mod serving;
mod single;
mod writing;

pub use acting::{Acted, serve_actor};
pub use serving::serve_call;

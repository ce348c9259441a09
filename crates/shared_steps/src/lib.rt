//! The steps of a channel that stands behind a lock, each in one turn. A caller of them is one of several, and
//! knows of the others what their entries leave as it was. It knows no whole call, and no thread.
#![tactic(auto)]

mod beginning;
mod contents;
mod pass_laws;
mod shared;
mod traced;

pub use beginning::Beginning;
pub use contents::Contents;
pub use pass_laws::references_tell_passes;
pub use shared::Shared;
pub use traced::Traced;

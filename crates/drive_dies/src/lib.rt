//! The dies of a drive: they are mounted as an image's head tells, and each channel takes its own from their list. It knows no
//! command cycle and nothing of what a channel does.
#![tactic(auto)]

mod mounting;
mod taking;

pub use mounting::{MountStop, mount_dies};
pub use taking::take_first;

//! A write of a caller among others that makes room for itself. It knows no trace, no hint and no thread.
#![tactic(auto)]

mod writing;

pub use writing::write_shared;

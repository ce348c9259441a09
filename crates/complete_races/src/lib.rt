//! That races are complete, as runs are: where no die counted a fault no reply tells of one, and on a drive that began blank
//! each write is done, and each read answers what its row holds. It has no code that runs: the law is the contract of a
//! function that does nothing.
#![tactic(auto)]

mod replies;

pub use replies::races_are_complete;

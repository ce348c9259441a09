//! That runs are complete: where no die counted a fault no reply tells of one, and on a drive that began blank each write is done,
//! and each read answers what its row holds. It has no code that runs: each law is the contract of a function that does nothing.
#![tactic(auto)]

mod replies;

pub use replies::{
    blank_runs_answer_reads, blank_runs_answer_traces, blank_runs_take_writes, runs_are_complete,
    told_pages_are_read_at_once, uncounted_runs_tell_no_fault,
};

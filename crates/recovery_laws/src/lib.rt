//! That a read gives the data of the last write, for every lawful past of a channel: with copies, erases, failed programs
//! and looks of many calls at once. It has no code that runs: each law is the contract of a function that does nothing.
//! It knows no image, no text and no order in which calls are served.
#![tactic(auto)]

mod held_looks;
mod page_data;
mod read_replies;
mod recovered_reads;

pub use held_looks::{closed_stripes_stay, stale_copies_change_nothing};
pub use page_data::{starts_have_named_pages, words_have_data};
pub use read_replies::{empty_reads_held_nothing, reads_give_last_writes, traced_runs_are_written};
pub use recovered_reads::{
    empty_rows_were_trimmed, recovered_pages_stay, recovered_reads_are_plain,
};

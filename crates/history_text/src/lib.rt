//! What a run prints: the histories, the replies and the summary of counts, line by line; and histories read
//! back from their lines. It knows no channel.
#![tactic(auto)]

mod call_counts;
mod counts;
mod entries;
mod fault;
mod kind_words;
mod put;
mod put_words;
mod read;
mod replies;
mod run;
mod summary;
mod word;
mod words;

pub use fault::HistoryFault;
pub use read::read_history;
pub use run::print_run;

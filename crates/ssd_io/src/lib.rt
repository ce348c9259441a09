//! Where bytes come from and where they go: a source, a sink and their counts of faults, those in memory, and
//! adapters over std's readers and writers. It knows no format.
#![tactic(auto)]

mod failed;
mod listed_calls;
mod mem_sink;
mod mem_source;
mod read_source;
mod sink;
mod source;
mod sure_source;
mod unread;
mod write_sink;

pub use failed::Failed;
pub use mem_sink::MemSink;
pub use mem_source::MemSource;
pub use read_source::ReadSource;
pub use sink::{Sink, write_all};
pub use source::Source;
pub use sure_source::SureSource;
pub use write_sink::WriteSink;

#[cfg(test)]
mod tests;

use thiserror::Error;

/// Why a text of histories was not read.
#[derive(Clone, Copy, Debug, PartialEq, Eq, Error)]
pub enum HistoryFault {
    /// The first line that is wrong, counted from 1. Where the text ends too early it is one more than the last line.
    #[error("line {line} is wrong")]
    Line { line: u64 },

    /// Memory was wanted and refused.
    #[error("out of memory")]
    Memory,
}

use thiserror::Error;

/// What is wrong with a trace: the first fault of its first wrong line.
#[derive(Clone, Copy, Debug, PartialEq, Eq, Error)]
pub enum TraceFault {
    /// The first line that isn't skipped doesn't tell the number of actors, or there is none.
    #[error("the first line is wrong")]
    First,

    /// The line or the trace is too long, or there are too many calls, or their reads give too many bytes.
    #[error("the trace is too long")]
    Long,

    /// The line isn't made of words with single spaces between, or of as many as are due.
    #[error("a line isn't made of the words that are due")]
    Form,

    /// A number isn't spelled as one.
    #[error("a number is misspelled")]
    Number,

    /// There is no such actor.
    #[error("there is no such actor")]
    Actor,

    /// There is no such verb.
    #[error("there is no such verb")]
    Verb,

    /// A number is outside its range.
    #[error("a number is out of range")]
    Range,

    /// The data of a write.
    #[error("the data of a write is wrong")]
    Data,
}

/// Why a line was not read.
#[derive(Clone, Copy)]
pub enum LineStop {
    /// The first fault of the line.
    Fault { fault: TraceFault },

    /// Memory was wanted and refused.
    Memory,
}

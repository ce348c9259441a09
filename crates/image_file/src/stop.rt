use thiserror::Error;

/// What is wrong with an image: its first fault.
#[derive(Clone, Copy, Debug, PartialEq, Eq, Error)]
pub enum ImageFault {
    /// The input ends within a field.
    #[error("the image ends too early")]
    Short,

    /// The image doesn't begin with its text.
    #[error("this is no image")]
    Magic,

    /// A number is outside its range.
    #[error("a number is out of range")]
    Range,

    /// An entry of the base matrix is neither -1 nor a shift below the lifting size.
    #[error("an entry of the base matrix is out of range")]
    Entry,

    /// The first parity column of the base matrix breaks its form.
    #[error("the first parity column is wrong")]
    Parity,

    /// An entry of the base matrix isn't that of the dual diagonal.
    #[error("the dual diagonal is wrong")]
    Diagonal,

    /// A weak or bad record doesn't stand after the one before.
    #[error("a record is out of order")]
    Order,

    /// A superblock's state.
    #[error("a superblock has no such state")]
    State,

    /// A number of used slots or of programmed pages.
    #[error("a number of slots or pages is wrong")]
    Count,

    /// The sum of an open stripe.
    #[error("the sum of an open stripe is wrong")]
    Sum,

    /// A row of a page map.
    #[error("a row is wrong")]
    Row,
}

/// Why a part of the input was not read.
#[derive(Clone, Copy, Debug, PartialEq, Eq)]
pub enum ReadStop<F> {
    /// The first fault and where it is.
    Fault { at: u64, fault: F },

    /// The source failed, and its count of faults rose.
    ReadFault,

    /// A die failed, and its count of faults rose. Dies are numbered through all channels.
    DieFailed { die: u8 },

    /// Memory was wanted and refused.
    Memory,
}

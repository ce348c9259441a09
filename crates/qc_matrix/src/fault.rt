use thiserror::Error;

/// What is wrong with a base matrix: the first fault. All entries come first, row by row, then the first parity
/// column, then the dual diagonal, row by row.
#[derive(Clone, Copy, Debug, PartialEq, Eq, Error)]
pub enum CodeFault {
    /// The entry is neither -1 nor a shift below the lifting size.
    #[error("the entry in row {row} and column {col} is out of range")]
    EntryRange { row: u8, col: u8 },

    /// The first parity column breaks its form in this row.
    #[error("the first parity column is wrong in row {row}")]
    ParityColumn { row: u8 },

    /// The entry isn't that of the dual diagonal.
    #[error("the dual diagonal is wrong in row {row} and column {col}")]
    Diagonal { row: u8, col: u8 },

    /// Memory was wanted and refused.
    #[error("out of memory")]
    Memory,
}

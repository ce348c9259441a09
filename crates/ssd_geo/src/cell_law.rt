/// The levels that programs and erases leave in cells, and the noise of a program.
#[derive(Clone, Copy, Debug, PartialEq, Eq)]
pub struct CellLaw {
    /// The level of a cell of an erased page, and of a 1 that was programmed: from -8,192 to 8,190.
    pub erased: i16,
    /// The level of a 0 that was programmed, before noise: above `erased`, and at most 8,191.
    pub programmed: i16,
    /// The greatest noise of a programmed cell, either way: at most 4,095.
    pub spread: u16,
    /// The number from which all noise is made.
    pub seed: u64,
}

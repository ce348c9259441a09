/// One whole operation of a die. The data bytes of a program stand in its cycles alone.
#[derive(Clone, Copy, Debug, PartialEq, Eq)]
pub enum Op {
    /// Senses a page.
    Read { column: u16, row: u32 },
    /// Programs a page.
    Program { column: u16, row: u32 },
    /// Erases the block of a row.
    Erase { row: u32 },
    /// Asks for the status byte.
    Status,
    /// Sets the die back.
    Reset,
    /// Sets the four parameters of a feature.
    SetFeatures { address: u8, params: [u8; 4] },
    /// Asks for the four parameters of a feature.
    GetFeatures { address: u8 },
}

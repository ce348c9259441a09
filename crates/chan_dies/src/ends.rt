/// How a program of a slot ended.
#[derive(Clone, Copy, Debug, PartialEq, Eq)]
pub enum ProgramEnd {
    /// The word stands in the slot's page, and with the last slot of a stripe the sum in the parity's.
    Programmed,
    /// The block of this die is weak and answered FAIL.
    Failed { die: u8 },
    /// The call of this die failed.
    Fault { die: u8 },
}

/// How an erase of a superblock ended. The blocks of the dies below the one that is named were erased.
#[derive(Clone, Copy, Debug, PartialEq, Eq)]
pub enum EraseEnd {
    /// All blocks of the superblock were erased.
    Erased,
    /// The block of this die is weak and answered FAIL.
    Failed { die: u8 },
    /// The call of this die failed.
    Fault { die: u8 },
}

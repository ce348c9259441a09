/// Why a step was not made. Nothing was changed.
#[derive(Clone, Copy, Debug, PartialEq, Eq)]
pub enum StepStop {
    /// The channel's history, of this length, has no room for the step.
    HistoryFull { length: u32 },
    /// Memory was wanted and refused.
    Memory,
}

/// Why a call of the trace was not served to its end.
#[derive(Clone, Copy, Debug, PartialEq, Eq)]
pub enum ServeStop {
    /// A step on this channel met the limit of its history, which had this length.
    HistoryFull { channel: u8, length: u32 },
    /// Memory was wanted and refused.
    Memory,
}

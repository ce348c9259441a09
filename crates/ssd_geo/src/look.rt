use crate::Slot;

/// A look that found a page: what the page map held at that moment.
#[derive(Clone, Copy, Debug, PartialEq, Eq)]
pub struct Look {
    /// The position of the Look entry in the channel's history.
    pub at: u32,
    /// The row.
    pub row: u32,
    /// The slot that the row named.
    pub slot: Slot,
    /// The serial that the row named, which the page's head is to have.
    pub serial: u64,
    /// Whether the slot's stripe was closed, so that its parity was programmed.
    pub closed: bool,
}

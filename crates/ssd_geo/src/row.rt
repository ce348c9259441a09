use crate::Slot;

/// What the page map holds for one row.
#[derive(Clone, Copy, Debug, PartialEq, Eq)]
pub enum Row {
    /// The row was never written, or was trimmed since.
    Empty,
    /// The row's page couldn't be recovered when its superblock was collected.
    Lost,
    /// The row's page stands in this slot; its head has this serial.
    Page { slot: Slot, serial: u64 },
}

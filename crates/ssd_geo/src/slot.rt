/// A data slot of a channel.
#[derive(Clone, Copy, Debug, PartialEq, Eq)]
pub struct Slot {
    /// The superblock.
    pub sb: u16,
    /// The slot's number in its superblock, counted from 0 over the stripes and in each over its data dies.
    pub index: u32,
}

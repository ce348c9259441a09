/// A weak block: it answers FAIL to program and erase exactly while its erase count is at least `from`.
#[derive(Clone, Copy, Debug, PartialEq, Eq)]
pub struct Weak {
    /// The channel.
    pub channel: u8,
    /// The die, counted within its channel.
    pub die: u8,
    /// The block of that die, which has its superblock's number.
    pub sb: u16,
    /// The least erase count at which the block is weak.
    pub from: u32,
}

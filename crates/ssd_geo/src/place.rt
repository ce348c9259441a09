/// A page of a channel's dies.
#[derive(Clone, Copy, Debug, PartialEq, Eq)]
pub struct Place {
    /// The die, counted within its channel.
    pub die: u8,
    /// The block of that die, which has its superblock's number.
    pub sb: u16,
    /// The page of that block.
    pub page: u16,
}

use crate::{CellLaw, Items, Shape, Weak};

/// What an image tells before its contents.
#[derive(Debug, Drop, PartialEq, Eq)]
pub struct ImageHead {
    /// The sizes of the drive, of its code and of its pages.
    pub shape: Shape,
    /// The read levels of read retry, in the order in which they are tried.
    pub read_levels: Items<i16>,
    /// The greatest number of iterations of one decoding.
    pub iterations: u8,
    /// The law of cell levels.
    pub law: CellLaw,
    /// The distance between the levels of soft senses.
    pub step: u16,
    /// The session, which stands in each serial.
    pub session: u32,
    /// The base matrix, row by row: -1 for a zero block, else a shift.
    pub entries: Items<i16>,
    /// The weak blocks, rising by channel, die and superblock.
    pub weak: Items<Weak>,
    /// The factory bad superblocks, each a channel and a superblock, rising.
    pub bad: Items<(u8, u16)>,
    /// Whether contents follow for each channel. Without them the drive is blank.
    pub full: bool,
    /// How many bytes of the image were read: the place of what follows.
    pub place: u64,
}

use crate::{CellLaw, Items, Row, SbState, Shape, Weak};

/// A superblock as an image has it.
#[derive(Clone, Copy, Debug, PartialEq, Eq)]
pub struct BlockBase {
    /// Its state.
    pub state: SbState,
    /// How often it was erased.
    pub erases: u32,
    /// How many of its data slots are used.
    pub used: u32,
}

/// A channel as an image has it, but for the cells of its dies.
#[derive(Debug, Drop, PartialEq, Eq)]
pub struct ChannelBase {
    /// The sizes of the drive, of its code and of its pages.
    pub shape: Shape,
    /// The session, which stands in each serial.
    pub session: u32,
    /// The superblocks.
    pub blocks: Items<BlockBase>,
    /// The page map.
    pub rows: Items<Row>,
    /// The sum of the data words of the open stripe, or zeros where no stripe is open.
    pub sum: Items<u8>,
    /// The number of the channel.
    pub channel: u8,
    /// The base matrix, row by row: -1 for a zero block, else a shift.
    pub entries: Items<i16>,
    /// The read levels of read retry, in the order in which they are tried.
    pub read_levels: Items<i16>,
    /// The greatest number of iterations of one decoding.
    pub iterations: u8,
    /// The distance between the levels of soft senses.
    pub step: u16,
    /// The law of cell levels.
    pub law: CellLaw,
    /// The weak blocks of all channels, rising by channel, die and superblock.
    pub weak: Items<Weak>,
}

// What the steps of a channel change of the base with which it began.
use ssd_geo::{BlockBase, Items, Row};

/// The parts of a channel's base that its steps change.
#[derive(Debug, Drop)]
pub struct BaseParts {
    /// The superblocks.
    pub blocks: Items<BlockBase>,
    /// The page map.
    pub rows: Items<Row>,
    /// The sum of the data words of the open stripe, or zeros where no stripe is open.
    pub sum: Items<u8>,
}

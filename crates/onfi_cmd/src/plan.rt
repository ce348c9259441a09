use ssd_geo::{CellLaw, Items, Shape, Weak};

/// What a die is told when it is mounted: which die of the drive it is, and the laws of its cells and blocks.
#[derive(Debug, Drop, PartialEq, Eq)]
pub struct DiePlan {
    /// The die's channel.
    pub channel: u8,
    /// The die, counted within its channel.
    pub die: u8,
    /// The sizes of the drive.
    pub shape: Shape,
    /// The levels of cells, and their noise.
    pub law: CellLaw,
    /// The weak blocks of the drive, or of this die alone.
    pub weak: Items<Weak>,
}

// The words of a line.
use ssd_geo::{Place, Slot, Tag};

/// One word of a line.
#[derive(Clone, Copy)]
pub enum Word {
    /// A word of the texts.
    Name(&'static [u8]),
    Number(u64),
    /// A count of the summary.
    Count(u128),
    /// A read level.
    Level(i16),
    /// A superblock and the slot's number in it.
    Address(Slot),
    /// A die and a superblock.
    Block { die: u8, sb: u16 },
    /// A die, a superblock and a page.
    At(Place),
    /// An actor and the number of a call.
    Call(Tag),
    /// The fault of a die.
    DieFault(u8),
}

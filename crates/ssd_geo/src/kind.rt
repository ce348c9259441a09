use crate::{Place, Row, Slot};

/// What a step did. In each variant `at` is the position of the Look entry that began the look at hand.
#[derive(Clone, Copy, Debug, PartialEq, Eq)]
pub enum Kind {
    /// A look at a row: what was found, and whether the stripe of a page found was closed (false without one).
    Look {
        row: u32,
        found: Row,
        closed: bool,
    },
    /// A sense of a place at a read level, for an open look.
    Sense {
        at: u32,
        place: Place,
        level: i16,
    },
    /// The end of an open look.
    Leave {
        at: u32,
    },
    /// A write of the row into the slot.
    Write {
        row: u32,
        slot: Slot,
    },
    /// A trim: the row is empty.
    Trim {
        row: u32,
    },
    /// A copy of the looked-up page into the slot, which the row names from here on.
    Move {
        at: u32,
        slot: Slot,
    },
    /// A copy that wasn't made, since the row no longer was the look's; `found` is what it was.
    Changed {
        at: u32,
        found: Row,
    },
    /// The looked-up page couldn't be recovered, and its row is lost.
    Condemn {
        at: u32,
    },
    /// A copy that wasn't made for want of room; `worn` is true where no collection can make room.
    Stay {
        at: u32,
        worn: bool,
    },
    /// The superblock became the victim.
    Pick {
        sb: u16,
    },
    /// The victim was erased and is free.
    Erase {
        sb: u16,
    },
    /// A write whose program failed on this die, and whose superblock is bad from here on. Where the die is the
    /// slot's own, nothing was programmed; where it is the parity die, the data page was programmed. `fault` is
    /// true where the die's call failed, and false where it answered FAIL.
    BadWrite {
        row: u32,
        slot: Slot,
        die: u8,
        fault: bool,
    },
    /// A copy whose program failed on this die, as in `BadWrite`.
    BadCopy {
        at: u32,
        slot: Slot,
        die: u8,
        fault: bool,
    },
    /// An erase that failed on this die, and whose superblock is bad from here on. The blocks of the dies below
    /// it were erased. `fault` is as in `BadWrite`.
    BadErase {
        sb: u16,
        die: u8,
        fault: bool,
    },
    /// A block was aged by this amount of cell levels.
    Age {
        die: u8,
        sb: u16,
        amount: u16,
    },
    /// A write that wasn't made for want of room; `worn` is as in `Stay`.
    Refused {
        row: u32,
        worn: bool,
    },
    /// A sense in which the die failed. Its look is left next.
    FaultSense {
        at: u32,
        place: Place,
        level: i16,
    },
    /// An ageing in which the die failed.
    FaultAge {
        die: u8,
        sb: u16,
        amount: u16,
    },
    /// The counts at this moment: free superblocks, the victim if there is one, its live pages and open looks
    /// (0 without one), and the sealed superblocks with garbage.
    Note {
        free: u16,
        victim: Option<u16>,
        live: u32,
        pins: u32,
        garbage: u16,
    },
}

use ssd_geo::{Row, Slot};

/// How a sense ended.
#[derive(Clone, Copy, Debug, PartialEq, Eq)]
pub enum SenseAnswer {
    /// The page was sensed.
    Sensed,
    /// The call of this die failed.
    DieFault { die: u8 },
}

/// How an ageing ended.
#[derive(Clone, Copy, Debug, PartialEq, Eq)]
pub enum AgeAnswer {
    /// The block was aged.
    Aged,
    /// The call of this die failed.
    DieFault { die: u8 },
}

/// How a write ended.
#[derive(Clone, Copy, Debug, PartialEq, Eq)]
pub enum WriteAnswer {
    /// The word was programmed into this slot, and the row names it.
    Written { slot: Slot },
    /// A program answered FAIL, and this superblock is bad.
    Failed { sb: u16 },
    /// The call of this die failed.
    DieFault { die: u8 },
    /// No superblock is free, and no collection can make one free.
    ReadOnly,
    /// There is no room, and nothing to collect.
    Full,
    /// The host has no room, but a collection may make some.
    NeedRoom,
}

/// How a move of a look's page ended.
#[derive(Clone, Copy, Debug, PartialEq, Eq)]
pub enum MoveAnswer {
    /// The row isn't as the look found it: it holds this.
    Changed { row: Row },
    /// There is no slot for a copy, and no collection can make room.
    ReadOnly,
    /// There is no room for a host's page, and the look doesn't stand in the victim.
    NoRoom,
    /// The word was programmed into this slot, and the row names it.
    Moved { slot: Slot },
    /// A program answered FAIL, and this superblock is bad.
    Failed { sb: u16 },
    /// The call of this die failed.
    DieFault { die: u8 },
}

/// How a pick of a victim ended.
#[derive(Clone, Copy, Debug, PartialEq, Eq)]
pub enum PickAnswer {
    /// There is a victim.
    Busy { sb: u16 },
    /// No superblock is free.
    ReadOnly,
    /// No sealed superblock has garbage.
    NoGarbage,
    /// This superblock is the victim.
    Picked { sb: u16 },
}

/// How an erase of the victim ended.
#[derive(Clone, Copy, Debug, PartialEq, Eq)]
pub enum EraseAnswer {
    /// The superblock isn't the victim.
    NotVictim,
    /// The victim has so many live pages.
    Live { count: u32 },
    /// The victim has no live page, and so many open looks stand in it.
    Pinned { count: u32 },
    /// The superblock is free, and was erased once more.
    Erased,
    /// The erase answered FAIL on this die, and the superblock is bad.
    FailedErase { die: u8 },
    /// The call of this die failed, and the superblock is bad.
    DieFault { die: u8 },
}

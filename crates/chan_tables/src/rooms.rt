use ssd_geo::{Row, Slot};

/// Where a write may go.
#[derive(Clone, Copy, Debug, PartialEq, Eq)]
pub enum WriteRoom {
    /// The next slot, where the host has room.
    Slot { slot: Slot },
    /// The host has no room, and no collection can make any.
    ReadOnly,
    /// The host has no room, and live pages take all that there is.
    Full,
    /// The host has no room until a collection makes some.
    NeedRoom,
}

/// Where a copy of a look's page may go.
#[derive(Clone, Copy, Debug, PartialEq, Eq)]
pub enum MoveRoom {
    /// The row isn't as the look found it: it holds this.
    Changed { row: Row },
    /// There is no slot for a copy, and no collection can make room.
    ReadOnly,
    /// There is no room for a host's page, and the look doesn't stand in the victim.
    NoRoom,
    /// The next slot.
    Slot { slot: Slot },
}

/// Whether a superblock may be picked.
#[derive(Clone, Copy, Debug, PartialEq, Eq)]
pub enum PickRoom {
    /// There is a victim.
    Busy { sb: u16 },
    /// There is no victim and no free superblock.
    ReadOnly,
    /// There is no victim, and no sealed superblock has garbage.
    NoGarbage,
    /// There is no victim, and a sealed superblock has garbage.
    Candidates,
}

/// Whether a superblock may be erased.
#[derive(Clone, Copy, Debug, PartialEq, Eq)]
pub enum EraseRoom {
    /// The superblock isn't the victim.
    NotVictim,
    /// The victim has so many live pages.
    Live { count: u32 },
    /// The victim has no live page, and so many open looks stand in it.
    Pinned { count: u32 },
    /// The victim has no live page, and no open look stands in it.
    May,
}

/// How a round of a collection ended.
#[derive(Clone, Copy, Debug, PartialEq, Eq)]
pub enum RoundReply {
    /// The victim was erased, and is free.
    Erased { sb: u16 },
    /// The erase of the victim answered FAIL, and it is bad.
    Retired { sb: u16 },
    /// The call of this die failed.
    DieFault { die: u8 },
    /// There was no victim and none could be picked, a copy found no room, the victim was no longer it,
    /// or it couldn't be erased yet.
    Left,
}

/// How a collection ended.
#[derive(Clone, Copy, Debug, PartialEq, Eq)]
pub enum CollectReply {
    /// This superblock was erased, and is free.
    Collected { sb: u16 },
    /// The erase of this superblock answered FAIL, and it is bad.
    Retired { sb: u16 },
    /// The call of this die failed.
    DieFault { die: u8 },
    /// There was nothing to collect, or the victim couldn't be emptied or erased yet.
    Idle,
}

/// How a write ended.
#[derive(Clone, Copy, Debug, PartialEq, Eq)]
pub enum WriteReply {
    /// The word was programmed, and the row names its slot.
    Written,
    /// There was no room, and nothing to collect.
    Full,
    /// No superblock was free, and no collection could make one free.
    ReadOnly,
    /// The call of this die failed.
    DieFault { die: u8 },
}

use crate::Items;

/// The verb of a call, without its arguments.
#[derive(Clone, Copy, Debug, PartialEq, Eq)]
pub enum CallKind {
    Write,
    Read,
    Trim,
    Refresh,
    Collect,
    Drain,
    Age,
}

/// How a refresh of a page ended.
#[derive(Clone, Copy, Debug, PartialEq, Eq)]
pub enum RefreshReply {
    /// The page was copied to a new slot.
    Moved,
    /// The row no longer named the page that was read.
    Changed,
    /// The row was empty.
    Empty,
    /// The page couldn't be recovered, or the row was lost before.
    Uncorrectable,
    /// There was no room for a copy, but collections may make some.
    NoRoom,
    /// There was no room for a copy, and no collection can make any.
    ReadOnly,
    /// A program answered FAIL.
    Failed,
    /// The call of this die failed.
    DieFault { die: u8 },
}

/// The answer of a call of the trace.
#[derive(Debug, Drop, PartialEq, Eq)]
pub enum Reply {
    /// The write, trim or ageing was made.
    Ok,
    /// The write found no room, with nothing left to collect.
    Full,
    /// The write or refresh found no room, and no collection can make any.
    ReadOnly,
    /// The call of this die failed.
    DieFault { die: u8 },
    /// The read's data, recovered at this rung of read retry.
    Data { rung: u8, bytes: Items<u8> },
    /// The row read or refreshed was empty.
    Empty,
    /// The page read or refreshed couldn't be recovered.
    Uncorrectable,
    /// The refreshed page was copied.
    Moved,
    /// The row of the refresh no longer named the page that was read.
    Changed,
    /// The refresh found no room, but collections may make some.
    NoRoom,
    /// A program of the refresh answered FAIL.
    Failed,
    /// The collection erased this superblock.
    Collected { sb: u16 },
    /// An erase of the collection answered FAIL, and this superblock is bad.
    Retired { sb: u16 },
    /// The collection had nothing to do.
    Idle,
    /// The drain took the hints of these pages, each with the reply of its refresh.
    Drained { pages: Items<(u32, RefreshReply)> },
}

/// How a copy of a look's page ended.
#[derive(Clone, Copy, Debug, PartialEq, Eq)]
pub enum CopyReply {
    /// The page was programmed into a new slot, which its row names.
    Moved,
    /// The row no longer named the page that the look found.
    Changed,
    /// The page couldn't be recovered, and its row is lost.
    Condemned,
    /// The page couldn't be recovered, and was left as it is.
    Uncorrectable,
    /// There was no room for a copy, but collections may make some.
    NoRoom,
    /// There was no room for a copy, and no collection can make any.
    ReadOnly,
    /// A program answered FAIL.
    Failed,
    /// The call of this die failed.
    DieFault { die: u8 },
}

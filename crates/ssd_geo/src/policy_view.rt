use crate::Items;

/// How victims are picked.
#[derive(Clone, Copy, Debug, PartialEq, Eq)]
pub enum PolicyKind {
    /// The most garbage first.
    Greedy,
    /// The superblock whose last erase is longest ago first.
    Oldest,
    /// Each superblock in turn.
    RoundRobin,
}

/// What a policy goes by.
#[derive(Debug, Drop, PartialEq, Eq)]
pub struct PolicyView {
    /// How it picks.
    pub kind: PolicyKind,
    /// Nothing for `Greedy`; for `Oldest` the superblocks erased, the last one at the end; for `RoundRobin` the
    /// last answer, if there was one.
    pub list: Items<u16>,
}

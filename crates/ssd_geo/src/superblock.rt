/// What a superblock is used for.
#[derive(Clone, Copy, Debug, PartialEq, Eq)]
pub enum SbState {
    /// No slot of it is used.
    Free,
    /// It has the next slot.
    Frontier,
    /// All its slots are used.
    Sealed,
    /// It is out of use for good; pages that stand in it are still read.
    Bad,
    /// All its slots are used, and its live pages are copied out before it is erased.
    Victim,
}

/// What a policy is told of a superblock.
#[derive(Clone, Copy, Debug, PartialEq, Eq)]
pub struct SbInfo {
    /// Its state.
    pub state: SbState,
    /// How many rows name its slots.
    pub live: u32,
    /// How many data slots it has.
    pub slots: u32,
    /// How often it was erased.
    pub erases: u32,
    /// How many open looks stand in it.
    pub pins: u32,
}

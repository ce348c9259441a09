use ssd_geo::{Look, Row};

/// What a look of a row found.
#[derive(Clone, Copy, Debug, PartialEq, Eq)]
pub enum LookAnswer {
    /// The row names no page.
    Empty,
    /// The row's page couldn't be recovered.
    Lost,
    /// A page. The look is open until it is left, and pins the page's superblock.
    Found(Look),
}

/// How the condemnation of a look's row ended.
#[derive(Clone, Copy, Debug, PartialEq, Eq)]
pub enum CondemnAnswer {
    /// The row isn't as the look found it: it holds this.
    Changed { row: Row },
    /// The row is lost.
    Condemned,
}

/// What a look of the victim's first live page found.
#[derive(Clone, Copy, Debug, PartialEq, Eq)]
pub enum LiveAnswer {
    /// The superblock isn't the victim.
    NotVictim,
    /// The victim has no live page.
    NoneLive,
    /// The live page of least index. The look is open until it is left.
    Found(Look),
}

/// How full a channel is at a moment.
#[derive(Clone, Copy, Debug, PartialEq, Eq)]
pub struct Note {
    /// The free superblocks.
    pub free: u16,
    /// The victim.
    pub victim: Option<u16>,
    /// The live pages of the victim: 0 without one.
    pub live: u32,
    /// The open looks that stand in the victim: 0 without one.
    pub pins: u32,
    /// The sealed superblocks with garbage.
    pub garbage: u16,
}

use crate::{Kind, Tag};
use std::mem::size_of;

/// One entry of a channel's history: what one step of a call did.
#[derive(Clone, Copy, Debug, PartialEq, Eq)]
pub struct Entry {
    /// The call whose step it was.
    pub tag: Tag,
    /// What the step did.
    pub kind: Kind,
}

// Eight full histories of 2^22 entries then take 2 GB.
const _: () = prove!(size_of::<Entry>() <= 64);

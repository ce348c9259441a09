use crate::{Items, Tag};

/// The calls of a trace, in the order of its lines.
#[derive(Debug, Drop, PartialEq, Eq)]
pub struct Trace {
    /// The number of actors.
    pub actors: u8,
    /// The calls.
    pub calls: Items<TraceCall>,
}

/// One call of a trace.
#[derive(Debug, Drop, PartialEq, Eq)]
pub struct TraceCall {
    /// Its actor, and its number among that actor's calls.
    pub tag: Tag,
    /// What it asks.
    pub verb: Verb,
}

/// What a call of a trace asks. A page is the host's number; dies are counted within their channel.
#[derive(Debug, Drop, PartialEq, Eq)]
pub enum Verb {
    /// Write the page.
    Write {
        page: u32,
        content: Content,
    },
    /// Read the page.
    Read {
        page: u32,
    },
    /// Trim the page.
    Trim {
        page: u32,
    },
    /// Copy the page to a new slot if it is unchanged.
    Refresh {
        page: u32,
    },
    /// Make one collection on the channel.
    Collect {
        channel: u8,
    },
    /// Take up to this many hints, and refresh the page of each.
    Drain {
        count: u8,
    },
    /// Age one block by this amount of cell levels.
    Age {
        channel: u8,
        die: u8,
        sb: u16,
        amount: u16,
    },
}

/// The data of a write.
#[derive(Debug, Drop, PartialEq, Eq)]
pub enum Content {
    /// These bytes, and zeros after them up to the data bytes of a page.
    Listed { list: Items<u8> },
    /// The first data bytes of the words of the generator that this number starts. They are made only when the
    /// call is served.
    Words { number: u64 },
}

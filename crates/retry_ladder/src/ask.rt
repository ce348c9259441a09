use ssd_geo::Place;

/// What a ladder wants next.
#[derive(Clone, Copy, Debug, PartialEq, Eq)]
pub enum Ask {
    /// A sense of this page at this read level.
    At { place: Place, level: i16 },
    /// Nothing: it has its answer.
    Done,
}

/// How a ladder ended.
#[derive(Clone, Copy, Debug, PartialEq, Eq)]
pub enum Answer {
    /// The page was recovered at this rung: that of its read level, or the one after them for soft
    /// senses, or the one after that for the sum of the stripe's other pages.
    Recovered { rung: u8 },
    /// The page can't be read from its own senses, nor from those of its stripe.
    Uncorrectable,
}

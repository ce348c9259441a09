use ssd_geo::Items;

/// A page, with the number of the pass that pushed it.
#[derive(Clone, Copy)]
pub struct Noted {
    pub page: u32,
    pub by: u8,
}

/// What one pass did.
pub struct Part {
    /// How many passes its queue has.
    pub passes: u32,
    /// The bound of the pages of its queue.
    pub pages: u32,
    pub number: u8,
    /// The pages that it pushed.
    pub pushed: Items<u32>,
    /// The pages that it took, each with the number of the pass that pushed it.
    pub taken: Items<Noted>,
}

/// Which passes are still to be dealt.
pub struct Dealing {
    pub passes: u32,
    pub pages: u32,
    /// The number of the next pass.
    pub from: u32,
}

/// What a seat at the queue knows. No value of it is made.
pub enum View {
    /// The queue has no bound yet, and this is its only seat.
    New,
    /// It deals the passes.
    Deals(Dealing),
    /// It has these passes: none, one, or those that were taken in.
    Has(Items<Part>),
}

use ssd_geo::{Entry, Items};

/// Where a pass is on its way to the value and back.
pub enum Stage {
    /// It has asked for no turn.
    Away,
    /// It has drawn this ticket.
    Waiting(u64),
    /// It is in turn.
    InTurn,
}

/// The numbers of a pass, and the list that it had seen, when it was joined.
pub struct Part {
    pub numbers: Items<u8>,
    pub seen: Items<Entry>,
}

/// What a seat at the table of a lock knows. No value of it is made.
pub struct View {
    /// Its number, or 255.
    pub number: u8,
    /// The numbers of passes that ended in it.
    pub ended: Items<u8>,
    /// The numbers that it still has to give.
    pub gives: Items<u8>,
    /// The list that it has seen.
    pub seen: Items<Entry>,
    /// The passes that were joined to it and that it has not compared yet.
    pub joined: Items<Part>,
    pub stage: Stage,
}

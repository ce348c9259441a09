/// How a read ended.
#[derive(Clone, Copy, Debug, PartialEq, Eq)]
pub enum ReadReply {
    /// The page was recovered at this rung of read retry; the worker has its data.
    Bytes { rung: u8 },
    /// The row names no page.
    Empty,
    /// The page couldn't be recovered.
    Uncorrectable,
    /// A sense failed: the call of this die did.
    DieFault { die: u8 },
}

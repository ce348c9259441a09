/// How many check rows of a layer are worked at once. The numbers that are left don't depend on it.
#[derive(Clone, Copy, Debug, PartialEq, Eq)]
pub enum Lanes {
    /// One check row at a time.
    One,
    /// Four check rows.
    Four,
    /// Eight check rows.
    Eight,
    /// Sixteen check rows.
    Sixteen,
    /// Thirty-two check rows.
    ThirtyTwo,
}

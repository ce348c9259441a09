/// A part of the work on a place.
#[derive(Clone, Copy, Debug, PartialEq, Eq)]
pub(crate) enum Part {
    /// One sense at a read level.
    Hard,
    /// Five senses around the best read level.
    Soft,
}

/// What one more sense made of the work on a place.
#[derive(Clone, Copy, Debug, PartialEq, Eq)]
pub(crate) enum Step {
    /// It wants one more.
    GoesOn,
    /// A word was found at this rung.
    Finds { rung: u8 },
    /// None was found.
    Misses,
}

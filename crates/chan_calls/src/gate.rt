use ssd_geo::Tag;

/// A moment in a call.
#[derive(Clone, Copy, Debug, PartialEq, Eq)]
pub enum Moment {
    /// A page is about to be encoded.
    Encode,
    /// A sense is about to be given to the ladder.
    Decode,
    /// The call was answered.
    Answered,
}

/// A moment of a call.
#[derive(Clone, Copy, Debug, PartialEq, Eq)]
pub struct Point {
    /// The call.
    pub tag: Tag,
    /// Where it is.
    pub moment: Moment,
}

/// What calls pass while they hold no channel. It has no meaning for them: a test may let them wait
/// for each other in it.
pub trait Gate: Sync {
    /// A call passes a moment.
    fn pass(&self, at: Point);
}

/// A gate that does nothing.
pub struct OpenGate;

impl Gate for OpenGate {
    fn pass(&self, _at: Point) {}
}

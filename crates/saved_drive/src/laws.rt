//! Laws of what a drive begins with. Each is the contract of a function that does nothing.
ghost use Rattle.saved_drive.specs.Contents.{ContentsMayBegin, DiesStayMounted, ReadyDiesAreMounted, SavedSerialsAreSmall};

/// A channel may begin with a base and mounted dies that are of contents.
pub fn contents_may_begin()
    ensures { ContentsMayBegin }
{}

/// Dies that were mounted stay so where pages are loaded into them.
pub fn dies_stay_mounted()
    ensures ready { ReadyDiesAreMounted }
    ensures loaded { DiesStayMounted }
{}

/// The serials of saved rows fit their field in a text.
pub fn saved_serials_are_small()
    ensures { SavedSerialsAreSmall }
{}

//! Laws of what an open look holds fast, beside those of the histories. Each is the contract of a function that does nothing.
ghost use Rattle.recovery_laws.specs.HeldLooks.{ClosedStripesStay, StaleCopiesChangeNothing};

/// A stripe of a look's superblock that was closed at the look is closed while the look is open.
pub fn closed_stripes_stay()
    ensures { ClosedStripesStay }
{}

/// A copy whose look stands before a write or a trim of a row doesn't change that row, also where the row was written
/// again since.
pub fn stale_copies_change_nothing()
    ensures { StaleCopiesChangeNothing }
{}

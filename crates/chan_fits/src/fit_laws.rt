//! Laws of the dies of a channel. Each is the contract of a function that does nothing.
ghost use Rattle.chan_fits.specs.FitLaws.{DiesFitAfterEntry, DiesFitTheirStart, DueAfterEntry, DueTablesAllowSteps};
ghost use Rattle.chan_fits.specs.FitLaws.{SensesAreThePasts, WeakBlocksAreThePasts};

/// The dies of a start hold what it says.
pub fn dies_fit_their_start()
    ensures { DiesFitTheirStart }
{}

/// Dies that hold what a past says and change as one more lawful entry tells hold what the longer past says.
pub fn dies_fit_after_entry()
    ensures { DiesFitAfterEntry }
{}

/// A table of superblocks whose pages and erases the dies have stays so after an entry, and then allows the next program and
/// erase.
pub fn due_after_entry()
    ensures stays { DueAfterEntry }
    ensures allows { DueTablesAllowSteps }
{}

/// What dies that fit a past sense, and which of their blocks are weak, is what the past says.
pub fn pasts_tell_dies()
    ensures senses { SensesAreThePasts }
    ensures weak { WeakBlocksAreThePasts }
{}

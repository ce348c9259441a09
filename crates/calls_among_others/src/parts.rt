//! Laws of the parts of a call among the entries of others. Each is the contract of a function that does nothing.
ghost use Rattle.calls_among_others.specs.Parts.{CopiesAmongAreCopies, RefreshesAmongAreRefreshes, RoundsAmongAreRounds};

/// A copy of a look's page is a copy, also where others came.
pub fn copies_among_are_copies()
    ensures { CopiesAmongAreCopies }
{}

/// So is a round, with what it decides.
pub fn rounds_among_are_rounds()
    ensures { RoundsAmongAreRounds }
{}

/// So is a refresh of a row.
pub fn refreshes_among_are_refreshes()
    ensures { RefreshesAmongAreRefreshes }
{}

//! A law of the replies of a race. It is the contract of a function that does nothing.
ghost use Rattle.complete_races.specs.CompleteRaces.{RacesAreComplete};

/// A race is complete of which the statement holds.
pub fn races_are_complete()
    ensures { RacesAreComplete }
{}

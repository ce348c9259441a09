//! A law of how races end. It is the contract of a function that does nothing.
ghost use Rattle.race_runs.specs.RaceEnds.{StoppedRacesAreNotWhole};

/// A race that stopped has a call without a reply.
pub fn stopped_races_are_not_whole()
    ensures { StoppedRacesAreNotWhole }
{}

//! Laws of how races end whose actors did their parts. Each is the contract of a function that does nothing.
ghost use Rattle.made_races.specs.EndedRaces.{AnsweredRacesAreWhole, StopsEndRaces};

/// Where no actor has a call without a reply, a race is whole.
pub fn answered_races_are_whole()
    ensures { AnsweredRacesAreWhole }
{}

/// Where each actor's first call without a reply stopped, a race stopped where one of them did.
pub fn stops_end_races()
    ensures { StopsEndRaces }
{}

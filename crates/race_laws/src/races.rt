//! Laws of whole races. Each is the contract of a function that does nothing.
ghost use Rattle.race_laws.specs.Races.{AskedActorsAreSoFar, RacesAreInOrder};
ghost use Rattle.race_laws.specs.RacesMade.{RacesMadeAreInOrder};

/// What is asked of each actor on each channel makes the calls of a race be in order.
pub fn races_are_in_order()
    ensures { RacesAreInOrder }
{}

/// It is asked of an actor of whose calls just the answered ones were made.
pub fn asked_actors_are_so_far()
    ensures { AskedActorsAreSoFar }
{}

/// A race whose calls were made by each actor on each channel, the last of which may have stopped, is in order with its
/// replies.
pub fn races_made_are_in_order()
    ensures { RacesMadeAreInOrder }
{}

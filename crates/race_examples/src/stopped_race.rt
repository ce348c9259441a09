//! A worked race. It is the contract of a function that does nothing.
ghost use Rattle.race_examples.specs.StoppedRace.{TwoActorsRaceStops};

use made_races::made_races_hold;

/// In a history of at most 257 entries the first actor's read stops after two trims, and the second actor's drain finds no
/// hint.
pub fn two_actors_race_stops()
    ensures { TwoActorsRaceStops }
{
    made_races_hold();
}

//! A worked race of two actors. It is the contract of a function that does nothing.
ghost use Rattle.race_laws.specs.TwoActorsRace.{TwoActorsRaceMeetsPremises};

/// A race in which one of two actors stops meets what the law of whole races asks.
pub fn two_actors_race_meets_premises()
    ensures { TwoActorsRaceMeetsPremises }
{}

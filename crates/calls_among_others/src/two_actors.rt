//! A worked history of two actors. It is the contract of a function that does nothing.
ghost use Rattle.calls_among_others.specs.TwoActors.{TwoActorsMeetPremises};

/// Calls whose steps interleave with another actor's meet what each law asks.
pub fn two_actors_meet_premises()
    ensures { TwoActorsMeetPremises }
{}

//! Laws of races whose actors did their parts. Each is the contract of a function that does nothing.
ghost use Rattle.made_races.specs.MadeHints.{MadeCallsTellHints};
ghost use Rattle.made_races.specs.MadeRaces.{ActorsFindAllRoom, MadeRacesHold};

use race_laws::{begun_actors_are_so_far, races_made_are_in_order};

/// The statement holds of a race whose actors did their parts, in channels whose locks were closed.
pub fn made_races_hold()
    ensures { MadeRacesHold }
{
    begun_actors_are_so_far();
    races_made_are_in_order();
}

/// Each entry of a race found room in its turn where those of each actor did.
pub fn actors_find_all_room()
    ensures { ActorsFindAllRoom }
{}

/// What the calls of an actor did at the queue of hints is what is asked of the actor.
pub fn made_calls_tell_hints()
    ensures { MadeCallsTellHints }
{}

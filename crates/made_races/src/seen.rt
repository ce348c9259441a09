//! Laws of what the passes of a channel's lock have seen. Each is the contract of a function that does nothing.
ghost use Rattle.made_races.specs.BegunDrains.{BegunDrainsTakeFew, RefreshedStays};
ghost use Rattle.made_races.specs.SeenPasts.{HistoriesGoOn, MadeSoFarStays, RoomStays, StopsStay};

use race_laws::{drains_take_few, refreshed_pages_are_drained};

/// What a lock says of a list that goes on from what a pass has seen, told of pasts: others came, and none of the pass's actor.
pub fn histories_go_on_from_what_was_seen()
    ensures { HistoriesGoOn }
{}

/// What an actor made up to what it has seen stands in each history that goes on from there, with the room that it found
/// and the place where it stopped.
pub fn what_was_made_stays()
    ensures made { MadeSoFarStays }
    ensures room { RoomStays }
    ensures stops { StopsStay }
{}

/// So does what a drain refreshed in which its actor stopped, and it took few hints.
pub fn begun_drains_take_few()
    ensures stays { RefreshedStays }
    ensures few { BegunDrainsTakeFew }
{
    refreshed_pages_are_drained();
    drains_take_few();
}

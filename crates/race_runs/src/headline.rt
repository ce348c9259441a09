//! Laws of the statement on a race. Each is the contract of a function that does nothing.
ghost use Rattle.race_runs.specs.RaceHeadline.{HeadlinesAreOfRaces, OrderedRacesHold, RacesThatFoundRoomAreRuns};
ghost use Rattle.race_runs.specs.RaceRoom.{RoomsAreFoundInTurns, TurnsOfAllFindRoom};

/// The statement holds where calls are in order with their replies, in histories that each channel may have.
pub fn ordered_races_hold()
    ensures { OrderedRacesHold }
{}

/// It is the statement on a run, but for the room that the entries found.
pub fn runs_and_races_share_their_statement()
    ensures runs { HeadlinesAreOfRaces }
    ensures races { RacesThatFoundRoomAreRuns }
{}

/// Entries that found room where calls are served one after the other found it in their turns; and all entries did where
/// those of each actor did.
pub fn rooms_are_found_in_turns()
    ensures serial { RoomsAreFoundInTurns }
    ensures actors { TurnsOfAllFindRoom }
{}

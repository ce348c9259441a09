//! Laws of the reserve, the room that is kept to empty a victim. Each is the contract of a function that does nothing.
ghost use Rattle.history_laws.specs.EmptiedVictims.{CopiesFindSlots, CopiesTakePages, NoneStayInVictim};
ghost use Rattle.history_laws.specs.EmptiedVictims.{VictimsGainNoPages, VictimsHaveSlots};
ghost use Rattle.history_laws.specs.Emptying.{EmptiedVictimsMayBeErased, PickedVictimsCanBeEmptied, VictimsCanBeEmptied};
ghost use Rattle.history_laws.specs.KeptReserve.{PicksAreReserved, ReserveStays};

/// The reserve stays until a program or an erase fails, and a pick leaves it.
pub fn reserve_stays()
    ensures stays { ReserveStays }
    ensures picks { PicksAreReserved }
{}

/// Nothing gives a victim a page, and each copy leaves it one fewer. Under the reserve its live pages have slots to go to, so
/// each copy finds one and none stays.
pub fn copies_empty_victims()
    ensures gain { VictimsGainNoPages }
    ensures copies { CopiesTakePages }
    ensures slots { VictimsHaveSlots }
    ensures finds { CopiesFindSlots }
    ensures stays { NoneStayInVictim }
{}

/// Whatever other calls have done, one call can empty the victim under the reserve, also where some pages can't be recovered.
pub fn victims_can_be_emptied()
    ensures emptied { VictimsCanBeEmptied }
    ensures picked { PickedVictimsCanBeEmptied }
    ensures erased { EmptiedVictimsMayBeErased }
{}

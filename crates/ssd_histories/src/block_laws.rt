//! Laws of superblocks in lawful histories. Each is the contract of a function that does nothing.
ghost use Rattle.ssd_histories.specs.BlockLaws.{BlocksAfterEntry, OneFrontier, OneVictim};
ghost use Rattle.ssd_histories.specs.Reserve.{PicksLeaveReserve, ReserveIsNotWorn};

/// A channel has at most one frontier and at most one victim at every position of a lawful history.
pub fn one_of_each()
    ensures frontier { OneFrontier }
    ensures victim { OneVictim }
{}

/// What the superblocks are after one more lawful entry, in the words of a table that is kept: so a table that was right
/// before a step and is changed by these words is right after it.
pub fn blocks_after_entry()
    ensures { BlocksAfterEntry }
{}

/// Under the reserve a channel isn't worn, and a lawful pick leaves the reserve.
pub fn reserve_is_not_worn()
    ensures worn { ReserveIsNotWorn }
    ensures picks { PicksLeaveReserve }
{}

//! Which room the entries of the worked histories ask for: the least limit with which each found it, and the next lower one.
ghost use Rattle.std.specs.Prelude.{◌≡◌, true, false};
ghost use Rattle.ssd_histories.specs.History.{past_of};
ghost use Rattle.ssd_histories.specs.HistoryExamples.{
  collected_history,
  faulted_history,
  idle_history,
  overwritten_history,
  pinned_history,
};
ghost use Rattle.ssd_histories.specs.HistoryRoom.{found_room};

/// A note at position 0 asks for one entry. The look at position 2 of a read asks for 256 entries, and what follows inside it
/// for nothing; nor does a failed sense.
pub fn example_looks_room()
    ensures note { found_room 1 (past_of idle_history) ≡ true }
    ensures no_note { found_room 0 (past_of idle_history) ≡ false }
    ensures look { found_room 258 (past_of overwritten_history) ≡ true }
    ensures no_look { found_room 257 (past_of overwritten_history) ≡ false }
    ensures fault { found_room 260 (past_of faulted_history) ≡ true }
    ensures no_fault { found_room 259 (past_of faulted_history) ≡ false }
{}

/// An erase asks for a look's room, here at positions 17 and 14, and before it the write at position 11 for one entry
/// beside the 256 of the open look.
pub fn example_collections_room()
    ensures erase { found_room 273 (past_of collected_history) ≡ true }
    ensures no_erase { found_room 272 (past_of collected_history) ≡ false }
    ensures pinned { found_room 270 (past_of pinned_history) ≡ true }
    ensures not_pinned { found_room 269 (past_of pinned_history) ≡ false }
{}

//! The definitions of room, of page maps and of policies at examples that were worked out by hand.
ghost use Rattle.std.specs.Prelude.{◌≡◌, [], ◌∷◌, true, false, Some, None};
ghost use Rattle.ssd_histories.specs.Blocks.{free_blocks_in, freshest_of, blocks_have_room, are_blocks_full, are_blocks_worn, next_slot_of, slots_left, with_next_used};
ghost use Rattle.ssd_histories.specs.PageMap.{first_live_in, live_in, owner_of, slot_at};
ghost use Rattle.ssd_histories.specs.Policies.{answer_of, candidates, default_victim_of, first_view, table_in, view_after_erase, view_after_pick};
ghost use Rattle.ssd_histories.specs.RoomExamples.{block, info, mixed_table, open_blocks, sealed_blocks, written_blocks, written_rows};
ghost use Rattle.ssd_geo.specs.declared.policy_view.PolicyKind.TheVariants.{Greedy, Oldest, RoundRobin};
ghost use Rattle.ssd_geo.specs.declared.superblock.SbState.TheVariants.{Free, Frontier, Sealed, Victim};

/// The frontier has the next slot; its last slot seals it, and the free superblock with the fewest erases is next.
pub fn example_slots()
    ensures frontier { next_slot_of open_blocks ≡ Some (slot_at 1 3) }
    ensures last_slot { with_next_used 4 open_blocks ≡ sealed_blocks }
    ensures freshest { next_slot_of sealed_blocks ≡ Some (slot_at 3 0) }
    ensures none { next_slot_of (block Sealed 0 4 ∷ []) ≡ None }
{}

/// Room for the host, no room, and room that no collection can make.
pub fn example_room()
    ensures frontier_and_free { blocks_have_room (block Frontier 0 1 ∷ block Free 0 0 ∷ []) ≡ true }
    ensures two_free { blocks_have_room (block Free 0 0 ∷ block Free 0 0 ∷ []) ≡ true }
    ensures one_free { blocks_have_room (block Sealed 0 4 ∷ block Free 0 0 ∷ []) ≡ false }
    ensures full { are_blocks_full (block Sealed 0 4 ∷ block Free 0 0 ∷ []) 0 ≡ true }
    ensures garbage { are_blocks_full (block Sealed 0 4 ∷ block Free 0 0 ∷ []) 1 ≡ false }
    ensures worn { are_blocks_worn 4 (block Frontier 0 2 ∷ block Victim 0 4 ∷ []) 3 ≡ true }
    ensures enough { are_blocks_worn 4 (block Frontier 0 2 ∷ block Victim 0 4 ∷ []) 2 ≡ false }
    ensures no_victim { are_blocks_worn 4 (block Frontier 0 2 ∷ block Sealed 0 4 ∷ []) 0 ≡ true }
    ensures a_free_one { are_blocks_worn 4 (block Sealed 0 4 ∷ block Free 0 0 ∷ []) 9 ≡ false }
{}

/// The live pages of a page map, and the table of its channel.
pub fn example_table()
    ensures live { live_in written_rows 0 ≡ 1 }
    ensures first { first_live_in written_rows 0 ≡ Some (slot_at 0 3) }
    ensures owner { owner_of written_rows (slot_at 1 0) ≡ Some 1 }
    ensures nobody { owner_of written_rows (slot_at 0 0) ≡ None }
    ensures table { table_in 4 written_blocks written_rows []
        ≡ info Sealed 1 ∷ info Frontier 1 ∷ info Free 0 ∷ info Free 0 ∷ [] }
{}

/// What the three policies pick, and how their views move on.
pub fn example_picks()
    ensures all { candidates mixed_table ≡ 0 ∷ 3 ∷ 4 ∷ [] }
    ensures greedy { default_victim_of mixed_table ≡ Some 0 }
    ensures nothing { answer_of (first_view Greedy) (info Sealed 4 ∷ info Free 0 ∷ []) ≡ 65535 }
    ensures never_erased { answer_of (record { kind = Oldest; list = 4 ∷ 0 ∷ [] }) mixed_table ≡ 3 }
    ensures longest_ago { answer_of (record { kind = Oldest; list = 4 ∷ 0 ∷ 3 ∷ [] }) mixed_table ≡ 4 }
    ensures erased { view_after_erase (record { kind = Oldest; list = 4 ∷ 0 ∷ [] }) 4
        ≡ record { kind = Oldest; list = 0 ∷ 4 ∷ [] } }
    ensures from_zero { answer_of (first_view RoundRobin) mixed_table ≡ 0 }
    ensures next { answer_of (record { kind = RoundRobin; list = 0 ∷ [] }) mixed_table ≡ 3 }
    ensures around { answer_of (record { kind = RoundRobin; list = 4 ∷ [] }) mixed_table ≡ 0 }
    ensures moved { view_after_pick (first_view RoundRobin) mixed_table ≡ record { kind = RoundRobin; list = 0 ∷ [] } }
{}

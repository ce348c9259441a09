ghost use Rattle.std.specs.Prelude.{◌≡◌, ◌+◌, ◌-◌, ◌<◌, ◌≤◌, ◌^◌};
ghost use Rattle.allocator.specs.Superblocks.{one_if, place_after};
ghost use Rattle.ssd_histories.specs.Blocks.{erased_block, is_free_block, is_frontier_block, is_victim_block, retired_block, victim_block, with_slot_used};

use ssd_geo::{BlockBase, SbState};

pub(crate) fn is_free(block: &BlockBase) -> bool
    ensures { result ≡ is_free_block block.now }
{
    matches!(block.state, SbState::Free)
}

pub(crate) fn is_frontier(block: &BlockBase) -> bool
    ensures { result ≡ is_frontier_block block.now }
{
    matches!(block.state, SbState::Frontier)
}

pub(crate) fn is_victim(block: &BlockBase) -> bool
    ensures { result ≡ is_victim_block block.now }
{
    matches!(block.state, SbState::Victim)
}

// The superblock after its next slot was used.
pub(crate) fn used_once(block: BlockBase, slots: u32) -> BlockBase
    requires { block.used < slots }
    ensures { result ≡ with_slot_used slots block }
{
    let used = block.used + 1;
    let state = if used == slots {
        SbState::Sealed
    } else {
        SbState::Frontier
    };
    BlockBase {
        state,
        erases: block.erases,
        used,
    }
}

// The superblock after a program or an erase failed in it.
pub(crate) fn retired(block: BlockBase) -> BlockBase
    ensures { result ≡ retired_block block }
{
    let used = if is_victim(&block) { 0 } else { block.used };
    BlockBase {
        state: SbState::Bad,
        erases: block.erases,
        used,
    }
}

// The superblock as the victim.
pub(crate) fn made_victim(block: BlockBase) -> BlockBase
    ensures { result ≡ victim_block block }
{
    BlockBase {
        state: SbState::Victim,
        erases: block.erases,
        used: block.used,
    }
}

// The superblock after it was erased.
pub(crate) fn erased_once(block: BlockBase) -> BlockBase
    requires { block.erases < 2 ^ 32 - 1 }
    ensures { result ≡ erased_block block }
{
    BlockBase {
        state: SbState::Free,
        erases: block.erases + 1,
        used: 0,
    }
}

// The place of the only superblock that passes a test, after one was replaced: whether it passed before, and now.
pub(crate) fn followed(place: Option<u16>, sb: u16, before: bool, now: bool) -> Option<u16>
    ensures { result ≡ place_after before now sb place }
{
    match (before, now) {
        (true, false) => None,
        (false, true) => Some(sb),
        _ => place,
    }
}

// How many superblocks pass a test, after one was replaced: whether it passed before, and now.
pub(crate) fn recounted(count: u16, before: bool, now: bool) -> u16
    requires some { one_if before ≤ count }
    requires few { count ≤ 256 }
    ensures { result + one_if before ≡ count + one_if now }
{
    count - u16::from(before) + u16::from(now)
}

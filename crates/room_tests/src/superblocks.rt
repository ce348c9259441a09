ghost use Rattle.std.specs.Prelude.{◌≡◌, IfOk, IsTrue, length, not};
ghost use Rattle.ssd_histories.specs.Blocks.{has_due_used};
ghost use Rattle.ssd_histories.specs.States.{is_victim};

use allocator::Blocks;
use ssd_geo::{BlockBase, SbState, Slot};
use std::alloc::{AllocError, Global};
use std::process::Abort;
use std::test::Fail;

fn slot(sb: u16, index: u32) -> Slot {
    Slot { sb, index }
}

fn block(state: SbState, erases: u32, used: u32) -> BlockBase
    ensures { result ≡ record { state = state; erases = erases; used = used } }
{
    BlockBase {
        state,
        erases,
        used,
    }
}

// The superblocks of the first test, of four slots each.
fn five_blocks(alloc: Global) -> Result<Blocks, AllocError>
    ensures { IfOk result (λ blocks. length blocks.blocks ≡ 5) }
{
    let list = [
        block(SbState::Sealed, 2, 4),
        block(SbState::Frontier, 0, 3),
        block(SbState::Free, 5, 0),
        block(SbState::Free, 1, 0),
        block(SbState::Sealed, 0, 4),
    ];
    Ok(Blocks::new(Vec::from_slice(alloc, &list)?, 4))
}

// A superblock of four slots, and the victim beside it.
fn beside_victim(alloc: Global, first: SbState, used: u32) -> Result<Blocks, AllocError>
    requires state { IsTrue (not (is_victim first)) }
    requires due { IsTrue (has_due_used 4 first used) }
{
    let list = [block(first, 0, used), block(SbState::Victim, 0, 4)];
    Ok(Blocks::new(Vec::from_slice(alloc, &list)?, 4))
}

// A call, and its answer where it has one.
#[derive(Clone, Copy, Debug)]
enum Call {
    Take(Slot),
    Retire(u16),
    Mark(u16),
    Erased(u16),
}

fn make(rt: &impl Abort, blocks: &mut Blocks, call: Call)
    requires { length blocks.old.blocks ≡ 5 }
    ensures { length blocks.new.blocks ≡ 5 }
{
    match call {
        Call::Take(slot) => {
            assert!(rt; blocks.any_room());
            assert_eq!(rt; blocks.take_slot(), slot);
        }
        Call::Retire(sb) => {
            assert!(rt; sb < 5);
            blocks.retire(sb);
        }
        Call::Mark(sb) => {
            assert!(rt; sb < 5);
            let sealed = matches!(blocks.block(sb).state, SbState::Sealed);
            assert!(rt; sealed);
            assert!(rt; blocks.victim().is_none());
            blocks.mark_victim(sb);
        }
        Call::Erased(sb) => {
            assert_eq!(rt; blocks.victim(), Some(sb));
            assert!(rt; sb < 5);
            assert!(rt; blocks.block(sb).erases < 9);
            assert_eq!(rt; blocks.erased(), sb);
        }
    }
}

// The free superblocks, the victim, the next slot, and whether there is room for the host.
type Seen = (u16, Option<u16>, Option<Slot>, bool);

fn seen(blocks: &Blocks) -> Seen {
    (
        blocks.free_count(),
        blocks.victim(),
        blocks.next_slot(),
        blocks.host_room(),
    )
}

// Makes the call, and compares the superblock that it changed, and what is seen afterwards.
fn row(rt: &impl Abort, blocks: &mut Blocks, step: Call, sb: u16, after: BlockBase, sees: Seen)
    requires { length blocks.old.blocks ≡ 5 }
    ensures { length blocks.new.blocks ≡ 5 }
{
    make(rt, blocks, step);
    assert!(rt; sb < 5);
    assert_eq!(rt; blocks.block(sb), after, "after {step:?}");
    assert_eq!(rt; seen(blocks), sees, "after {step:?}");
    assert_eq!(rt; blocks.any_room(), sees.2.is_some());
}

// The frontier's last slot seals it, and the freshest free superblock is next.
fn seal_and_mark(rt: &impl Abort, blocks: &mut Blocks)
    requires { length blocks.old.blocks ≡ 5 }
    ensures { length blocks.new.blocks ≡ 5 }
{
    row(
        rt,
        blocks,
        Call::Take(slot(1, 3)),
        1,
        block(SbState::Sealed, 0, 4),
        (2, None, Some(slot(3, 0)), true),
    );
    row(
        rt,
        blocks,
        Call::Take(slot(3, 0)),
        3,
        block(SbState::Frontier, 1, 1),
        (1, None, Some(slot(3, 1)), true),
    );
    row(
        rt,
        blocks,
        Call::Mark(0),
        0,
        block(SbState::Victim, 2, 4),
        (1, Some(0), Some(slot(3, 1)), true),
    );
}

// A bad superblock keeps the number of the slot that failed.
fn retire_the_frontier_and_erase(rt: &impl Abort, blocks: &mut Blocks)
    requires { length blocks.old.blocks ≡ 5 }
    ensures { length blocks.new.blocks ≡ 5 }
{
    row(
        rt,
        blocks,
        Call::Retire(3),
        3,
        block(SbState::Bad, 1, 1),
        (1, Some(0), Some(slot(2, 0)), false),
    );
    row(
        rt,
        blocks,
        Call::Take(slot(2, 0)),
        2,
        block(SbState::Frontier, 5, 1),
        (0, Some(0), Some(slot(2, 1)), false),
    );
    row(
        rt,
        blocks,
        Call::Erased(0),
        0,
        block(SbState::Free, 3, 0),
        (1, None, Some(slot(2, 1)), true),
    );
}

// A victim whose erase failed has no slot used.
fn retire_the_victim(rt: &impl Abort, blocks: &mut Blocks)
    requires { length blocks.old.blocks ≡ 5 }
    ensures { length blocks.new.blocks ≡ 5 }
{
    row(
        rt,
        blocks,
        Call::Mark(1),
        1,
        block(SbState::Victim, 0, 4),
        (1, Some(1), Some(slot(2, 1)), true),
    );
    row(
        rt,
        blocks,
        Call::Retire(1),
        1,
        block(SbState::Bad, 0, 0),
        (1, None, Some(slot(2, 1)), true),
    );
}

// A free superblock, the frontier and a sealed superblock go bad, and there is no room.
fn retire_the_others(rt: &impl Abort, blocks: &mut Blocks)
    requires { length blocks.old.blocks ≡ 5 }
    ensures { length blocks.new.blocks ≡ 5 }
{
    row(
        rt,
        blocks,
        Call::Retire(0),
        0,
        block(SbState::Bad, 3, 0),
        (0, None, Some(slot(2, 1)), false),
    );
    row(
        rt,
        blocks,
        Call::Retire(2),
        2,
        block(SbState::Bad, 5, 1),
        (0, None, None, false),
    );
    row(
        rt,
        blocks,
        Call::Retire(4),
        4,
        block(SbState::Bad, 0, 4),
        (0, None, None, false),
    );
}

#[test]
fn superblocks_change_by_each_call(rt: HostRuntime) -> Result<(), Fail> {
    let mut blocks = five_blocks(rt.alloc())?;
    assert_eq!(rt; seen(&blocks), (2, None, Some(slot(1, 3)), true));
    seal_and_mark(&rt, &mut blocks);
    retire_the_frontier_and_erase(&rt, &mut blocks);
    retire_the_victim(&rt, &mut blocks);
    retire_the_others(&rt, &mut blocks);
    Ok(())
}

#[test]
fn worn_compares_with_the_victim(rt: HostRuntime) -> Result<(), Fail> {
    let alloc = rt.alloc();
    let open = beside_victim(alloc, SbState::Frontier, 2)?;
    for (live, worn) in [(0, false), (2, false), (3, true)] {
        assert_eq!(rt; open.worn(live), worn, "{live} live");
    }
    let closed = beside_victim(alloc, SbState::Sealed, 4)?;
    for (live, worn) in [(0, false), (1, true)] {
        assert_eq!(rt; closed.worn(live), worn, "{live} live");
    }
    let free = beside_victim(alloc, SbState::Free, 0)?;
    assert_eq!(rt; free.worn(4), false);
    Ok(())
}

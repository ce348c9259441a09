ghost use Rattle.std.specs.Prelude.{◌≡◌, ◌*◌, ◌<◌, ◌≤◌, IfOk, OnOk, length, map};
ghost use Rattle.ssd_geo.specs.Cells.{IsCellLaw};
ghost use Rattle.drive_dies.specs.Mounting.{AllTell, AreReady, BecomesMounted, CountsMounts, MountsDies, die_count, numbered};

use onfi_cmd::{Die, DiePlan, DieStop};
use ssd_geo::{ImageHead, Items, Memory, Weak};
use std::alloc::Global;

/// Why the dies of a drive weren't mounted.
#[derive(Clone, Copy, Debug, PartialEq, Eq)]
pub enum MountStop {
    /// This die of the drive failed.
    Failed { die: u8 },
    /// Memory was wanted and refused.
    Memory,
}

// A copy of a list of weak blocks.
fn copied(alloc: Global, list: &Items<Weak>) -> Result<Items<Weak>, Memory>
    ensures { IfOk result (λ copy. copy ≡ list.now) }
{
    match Vec::from_slice(alloc, list.as_slice()) {
        Ok(vec) => Ok(Items::new(vec)),
        Err(_) => Err(Memory),
    }
}

// Mounts the die with this number in the drive, and gives the plan that die's channel and number.
fn mount_die<D: Die>(
    alloc: Global,
    number: u8,
    plan: &mut DiePlan,
    die: &mut D,
) -> Result<(), MountStop>
    requires law { IsCellLaw plan.old.law }
    requires number { number < plan.old.shape.channels * plan.old.shape.dies }
    ensures plan { plan.new ≡ numbered plan.old number }
    ensures die { BecomesMounted (numbered plan.old number) number result (D.state die.old) (D.state die.new) }
{
    plan.channel = number / plan.shape.dies;
    plan.die = number % plan.shape.dies;
    match die.mount(alloc, plan) {
        Ok(()) => Ok(()),
        Err(DieStop::Failed) => Err(MountStop::Failed { die: number }),
        Err(DieStop::Memory) => Err(MountStop::Memory),
    }
}

/// Mounts the first dies of a list as those of the drive that an image's head tells of, in the order of their channels and
/// numbers. It stops at the first that fails; none is taken away.
pub fn mount_dies<D: Die>(alloc: Global, head: &ImageHead, dies: &mut [D]) -> Result<(), MountStop>
    requires law { IsCellLaw head.now.law }
    requires count { die_count head.now ≤ length dies.old }
    ensures dies { MountsDies head.now (map D.state dies.old) (map D.state dies.new) result }
    ensures counts { CountsMounts (map D.state dies.old) (map D.state dies.new) result }
    ensures ready { OnOk result (AllTell (map D.state dies.old) → AreReady head.now (map D.state dies.new)) }
{
    mount_each(alloc, head, dies)
}

// Mounts them one after the other.
fn mount_each<D: Die>(alloc: Global, head: &ImageHead, dies: &mut [D]) -> Result<(), MountStop>
    requires law { IsCellLaw head.now.law }
    requires count { die_count head.now ≤ length dies.old }
    ensures { MountsDies head.now (map D.state dies.old) (map D.state dies.new) result }
{
    let Ok(weak) = copied(alloc, &head.weak) else {
        return Err(MountStop::Memory);
    };
    let mut plan = DiePlan {
        channel: 0,
        die: 0,
        shape: head.shape,
        law: head.law,
        weak,
    };
    for number in 0..head.shape.channels * head.shape.dies {
        match mount_die(alloc, number, &mut plan, &mut dies[number as usize]) {
            Ok(()) => {}
            Err(stop) => return Err(stop),
        }
    }
    Ok(())
}

// Channels that go behind locks, and come out again.
ghost use Rattle.std.specs.Prelude.{◌≡◌, ◌≤◌, IfOk, length, map};
ghost use Rattle.raced_channels.specs.Locks.{AreClosed, AreLocked, HaveAllPasses, HaveNoEntries};

use onfi_cmd::Die;
use shared_steps::{Contents, Traced};
use ssd_geo::Memory;
use std::alloc::Global;
use turn_table::{Pass, Turns};
use victim::Policy;

/// The locks of channels, and row by row the passes of each.
#[derive(Drop)]
pub struct Locked<D: Die, P: Policy, J: Contents> {
    pub locks: Vec<Turns<Traced<D, P, J>>>,
    pub passes: Vec<Vec<Pass>>,
}

/// A lock round each channel, with a pass for each of so many actors.
pub fn lock_channels<D: Die, P: Policy, J: Contents>(
    alloc: Global,
    channels: Vec<Traced<D, P, J>>,
    actors: u32,
) -> Result<Locked<D, P, J>, Memory>
    requires some { 1 ≤ actors }
    requires few { actors ≤ 32 }
    requires new { HaveNoEntries channels.items }
    ensures { IfOk result (λ locked.
        AreLocked J.contents actors channels.items locked.locks.items (map (λ row. row.items) locked.passes.items)) }
{
    let mut channels = channels;
    let mut locks = Vec::new(alloc);
    let mut passes = Vec::new(alloc);
    for number in 0..channels.len() {
        let channel = channels.remove(0);
        channel.keeps_standing();
        let (lock, row) = Turns::new(alloc, channel, actors)?;
        let Ok(()) = locks.push(lock) else {
            return Err(Memory);
        };
        let Ok(()) = passes.push(row) else {
            return Err(Memory);
        };
    }
    Ok(Locked { locks, passes })
}

/// The channels behind locks, once all passes of each are back.
pub fn close_locks<D: Die, P: Policy, J: Contents>(
    alloc: Global,
    locks: Vec<Turns<Traced<D, P, J>>>,
    passes: Vec<Vec<Pass>>,
) -> Result<Vec<Traced<D, P, J>>, Memory>
    requires { HaveAllPasses locks.items (map (λ row. row.items) passes.items) }
    ensures { IfOk result (λ channels.
        AreClosed J.contents locks.items (map (λ row. row.items) passes.items) channels.items) }
{
    let mut locks = locks;
    let mut passes = passes;
    let mut channels = Vec::new(alloc);
    for number in 0..locks.len() {
        let lock = locks.remove(0);
        let row = passes.remove(0);
        let channel = lock.close(row);
        channel.keeps_standing();
        let Ok(()) = channels.push(channel) else {
            return Err(Memory);
        };
    }
    Ok(channels)
}

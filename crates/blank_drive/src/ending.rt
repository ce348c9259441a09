ghost use Rattle.std.specs.Prelude.{◌≡◌, ◌++◌, All, IfOk, flat_map, length, map};
ghost use Rattle.ssd_histories.specs.History.{history_of};
ghost use Rattle.chan_state.specs.ChannelState.{EndsWhole, parts_of};

use chan_state::{BaseParts, Channel};
use onfi_cmd::Die;
use ssd_geo::{Entry, Items, Memory};
use std::alloc::Global;
use victim::Policy;

/// What channels give back.
#[derive(Drop)]
pub struct Ended<D: Die> {
    /// The dies, in the order in which they were handed in.
    pub dies: Vec<D>,
    /// The history of each channel.
    pub histories: Vec<Items<Entry>>,
    /// The changed parts of the base of each channel.
    pub parts: Vec<BaseParts>,
}

/// Ends channels. Their dies stand in front of those that no channel took.
pub fn end_channels<D: Die, P: Policy>(
    alloc: Global,
    channels: Vec<Channel<D, P>>,
    left: Vec<D>,
) -> Result<Ended<D>, Memory>
    ensures dies { IfOk result (λ ended. map D.state ended.dies.items
        ≡ flat_map (λ channel. channel.kept.dies) channels.items ++ map D.state left.items) }
    ensures counts { IfOk result (λ ended.
        All (λ channel. length channel.kept.dies ≡ channel.kept.shape.dies) channels.items) }
    ensures histories { IfOk result (λ ended. ended.histories.items
        ≡ map (λ channel. history_of channel.kept.past) channels.items) }
    ensures parts { IfOk result (λ ended. ended.parts.items ≡ map (λ channel. parts_of channel.kept) channels.items) }
    ensures whole { IfOk result (λ ended. All (λ channel. EndsWhole channel.kept) channels.items) }
{
    let mut left = left;
    let mut dies = Vec::new(alloc);
    let mut histories = Vec::new(alloc);
    let mut parts = Vec::new(alloc);
    for channel in channels {
        let (mut own, history, changed) = channel.finish();
        let Ok(()) = dies.append(&mut own) else {
            return Err(Memory);
        };
        let Ok(()) = histories.push(history) else {
            return Err(Memory);
        };
        let Ok(()) = parts.push(changed) else {
            return Err(Memory);
        };
    }
    match dies.append(&mut left) {
        Ok(()) => Ok(Ended {
            dies,
            histories,
            parts,
        }),
        Err(_) => Err(Memory),
    }
}

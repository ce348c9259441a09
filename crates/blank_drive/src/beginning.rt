ghost use Rattle.std.specs.Prelude.{◌≡◌, ◌<◌, ◌≤◌, ◌*◌, ◌^◌, IfOk, OnOk, drop, map, take, vec_len};
ghost use Rattle.ssd_formats.specs.ImageHead.{IsHead, head_of};
ghost use Rattle.drive_dies.specs.Mounting.{AllTell, AreDiesOf, AreReady, CountsMounts, die_count};
ghost use Rattle.blank_drive.specs.Begun.{AreBegun, IsBegun, StandAtStarts};
ghost use Rattle.final_dies.specs.FinalDies.{counts_of};

use chan_state::Channel;
use channel_base::blank_base;
use drive_dies::{MountStop, mount_dies, take_first};
use onfi_cmd::Die;
use ssd_geo::{ImageHead, Memory};
use std::alloc::Global;
use victim::Policy;

// The channel with this number, which begins with its dies and its policy.
fn begin_channel<D: Die, P: Policy>(
    alloc: Global,
    head: &ImageHead,
    number: u8,
    dies: Vec<D>,
    policy: P,
    limit: u32,
) -> Result<Channel<D, P>, Memory>
    requires head { IsHead (head_of head.now) }
    requires in_drive { number < head.now.shape.channels }
    requires dies { AreDiesOf head.now number (map D.state dies.items) }
    requires limit_low { 256 ≤ limit }
    requires limit_high { limit ≤ 2 ^ 22 }
    ensures begun { IfOk result (λ channel.
        IsBegun (head_of head.now) limit number (map D.state dies.items) (P.told policy) channel.kept) }
    ensures view { IfOk result (λ channel. P.told channel.policy ≡ P.told policy) }
{
    let base = blank_base(alloc, head, number)?;
    Channel::start(alloc, base, dies, policy, limit)
}

/// The channels of a blank drive. They take their dies, which are the first of the list, and the first of the policies, in the
/// order of the channels.
pub fn begin_channels<D: Die, P: Policy>(
    alloc: Global,
    head: &ImageHead,
    dies: &mut Vec<D>,
    policies: Vec<P>,
    limit: u32,
) -> Result<Vec<Channel<D, P>>, Memory>
    requires head { IsHead (head_of head.now) }
    requires dies { AreReady head.now (map D.state dies.old.items) }
    requires policies { head.now.shape.channels ≤ vec_len policies }
    requires limit_low { 256 ≤ limit }
    requires limit_high { limit ≤ 2 ^ 22 }
    ensures count { IfOk result (λ channels. vec_len channels ≡ head.now.shape.channels) }
    ensures begun { IfOk result (λ channels. AreBegun (head_of head.now) limit (map D.state dies.old.items)
        (map (λ policy. P.told policy) policies.items) (map (λ channel. channel.kept) channels.items)) }
    ensures starts { IfOk result (λ channels. StandAtStarts head.now limit (counts_of (map D.state dies.old.items))
        (map (λ policy. P.told policy) policies.items) (map (λ channel. channel.kept) channels.items)) }
    ensures views { IfOk result (λ channels. map (λ channel. P.told channel.policy) channels.items
        ≡ take head.now.shape.channels (map (λ policy. P.told policy) policies.items)) }
    ensures left { OnOk result (dies.new.items ≡ drop (die_count head.now) dies.old.items) }
{
    let mut policies = policies;
    let mut channels = Vec::new(alloc);
    for number in 0..head.shape.channels {
        let own = take_first(alloc, dies, head.shape.dies as usize)?;
        let policy = policies.remove(0);
        let channel = begin_channel(alloc, head, number, own, policy, limit)?;
        let Ok(()) = channels.push(channel) else {
            return Err(Memory);
        };
    }
    Ok(channels)
}

/// Mounts the first dies of a list as those of a blank drive. The others, and where one fails those behind it, are as they
/// were.
pub fn mount_drive<D: Die>(
    alloc: Global,
    head: &ImageHead,
    dies: &mut Vec<D>,
) -> Result<(), MountStop>
    requires head { IsHead (head_of head.now) }
    requires enough { die_count head.now ≤ vec_len dies.old }
    requires tell { AllTell (map D.state dies.old.items) }
    ensures ready { OnOk result (AreReady head.now (map D.state dies.new.items)) }
    ensures counts { CountsMounts (map D.state dies.old.items) (map D.state dies.new.items) result }
    ensures others { OnOk result (drop (die_count head.now) (map D.state dies.new.items)
        ≡ drop (die_count head.now) (map D.state dies.old.items)) }
{
    mount_dies(alloc, head, dies)
}

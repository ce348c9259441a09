// Channels that begin, each with the start for which it stands.
ghost use Rattle.std.specs.Prelude.{◌≡◌, ◌≤◌, ◌^◌, IfOk, OnOk, drop, length, map, vec_len};
ghost use Rattle.drive_dies.specs.Mounting.{die_count};
ghost use Rattle.saved_drive.specs.Contents.{AreMounted, HaveImage};
ghost use Rattle.ssd_formats.specs.ImageHead.{IsHead, head_of};
ghost use Rattle.raced_channels.specs.Begun.{HaveBegunTraced};

use chan_state::Channel;
use drive_dies::take_first;
use onfi_cmd::Die;
use shared_steps::{Beginning, Contents, Traced};
use ssd_geo::{ChannelBase, ImageHead, Memory};
use std::alloc::Global;
use victim::Policy;

/// The channels of a drive, with what its image tells of them, each with its start. They take their dies, which are the first
/// of the list, and the first of the policies, in the order of the channels.
pub fn begin_traced<D: Die, P: Policy, J: Contents>(
    alloc: Global,
    head: &ImageHead,
    bases: Vec<ChannelBase>,
    dies: &mut Vec<D>,
    policies: Vec<P>,
    limit: u32,
) -> Result<Vec<Traced<D, P, J>>, Memory>
    requires head { IsHead (head_of head.now) }
    requires mounted { AreMounted head.now (map D.state dies.old.items) }
    requires image { HaveImage (head_of head.now) bases.items (map D.state dies.old.items) }
    requires policies { head.now.shape.channels ≤ vec_len policies }
    requires limit_low { 256 ≤ limit }
    requires limit_high { limit ≤ 2 ^ 22 }
    ensures count { IfOk result (λ channels. vec_len channels ≡ head.now.shape.channels) }
    ensures begun { IfOk result (λ channels. HaveBegunTraced bases.items limit head.now.shape.dies
        (map D.state dies.old.items) (map (λ policy. P.told policy) policies.items) channels.items) }
    ensures left { OnOk result (dies.new.items ≡ drop (die_count head.now) dies.old.items) }
{
    let mut bases = bases;
    let mut policies = policies;
    let mut channels = Vec::new(alloc);
    for number in 0..head.shape.channels {
        let own = take_first(alloc, dies, head.shape.dies as usize)?;
        let base = bases.remove(0);
        let policy = policies.remove(0);
        let beginning = Beginning::of(&base, &own, &policy, limit);
        let channel = Channel::start(alloc, base, own, policy, limit)?;
        let Ok(()) = channels.push(Traced::new(channel, beginning)) else {
            return Err(Memory);
        };
    }
    Ok(channels)
}

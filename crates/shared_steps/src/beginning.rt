ghost use Rattle.std.specs.Prelude.{◌≡◌, map};
ghost use Rattle.chan_state.specs.Starting.{start_of};

use onfi_cmd::Die;
use ssd_geo::ChannelBase;
use std::marker::Model;
use std::snapshot::Snapshot;
use victim::Policy;

/// What a channel begins with, which it doesn't keep itself. Contracts see it as the channel's start.
#[derive(Drop)]
pub struct Beginning<D: Die, P: Policy> {
    base: Snapshot<ChannelBase>,
    dies: Snapshot<Vec<D>>,
    policy: Snapshot<P>,
    limit: u32,
}

impl<D: Die, P: Policy> Model for Beginning<D, P> {
    ghost use Rattle.std.specs.Prelude.{map};
    ghost use Rattle.chan_state.specs.Starting.{start_of};
    ghost use Rattle.ssd_histories.specs.Start.{Start};

    ghost Value = { Start };

    ghost view = { λ a.
        start_of a.base.value a.limit (map D.state a.dies.value.items) (P.told a.policy.value) };
}

impl<D: Die, P: Policy> Beginning<D, P> {
    /// What a channel of these begins with.
    pub fn of(base: &ChannelBase, dies: &Vec<D>, policy: &P, limit: u32) -> Beginning<D, P>
        ensures { result ≡ start_of base.now limit (map D.state dies.now.items) (P.told policy.now) }
    {
        Beginning {
            base: Snapshot::of(base),
            dies: Snapshot::of(dies),
            policy: Snapshot::of(policy),
            limit,
        }
    }
}

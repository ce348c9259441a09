// The pick of a victim, its live pages, and its erase.
ghost use Rattle.std.specs.Prelude.{◌≡◌, IfOk, OnErr};
ghost use Rattle.chan_state.specs.ChannelState.{DiesStay, KeepsStanding};
ghost use Rattle.chan_state.specs.Collecting.{Erases, IsPickedBy, LooksLive, MovesView, Picks, fault_of_erase, view_of_erase};
ghost use Rattle.chan_state.specs.Collecting.{view_of_pick};
ghost use Rattle.chan_state.specs.Steps.{CountAt, HasLookRoom, HasStepRoom, IsRefused};

use super::Channel;
use crate::{EraseAnswer, LiveAnswer, PickAnswer};
use onfi_cmd::Die;
use ssd_geo::{StepStop, Tag};
use victim::Policy;

impl<D: Die, P: Policy> Channel<D, P> {
    /// Makes a sealed superblock with garbage the victim: the one that the policy picks, where that is one of them.
    pub fn pick(&mut self, tag: Tag) -> Result<PickAnswer, StepStop>
        ensures room { IsRefused (HasStepRoom self.old.kept) self.old.kept result }
        ensures ok { IfOk result (λ answer. Picks self.old.kept self.new.kept tag answer) }
        ensures choice { IfOk result (λ answer. IsPickedBy self.old.kept (P.told self.old.policy) answer) }
        ensures view { IfOk result (λ answer.
            P.told self.new.policy ≡ view_of_pick self.old.kept (P.told self.old.policy) answer) }
        ensures err { OnErr result (self.new.kept ≡ self.old.kept) }
        ensures err_view { OnErr result (P.told self.new.policy ≡ P.told self.old.policy) }
        ensures dies { DiesStay self.old.kept self.new.kept }
        ensures stands { MovesView self.old.kept (P.told self.old.policy) self.new.kept (P.told self.new.policy) }
    {
        self.kept.pick(tag, &mut self.policy)
    }

    /// Looks at the live page of least index in the victim. It stays where it is until the look is left.
    pub fn look_live(&mut self, tag: Tag, sb: u16) -> Result<LiveAnswer, StepStop>
        ensures room { IsRefused (HasLookRoom self.old.kept) self.old.kept result }
        ensures ok { IfOk result (λ answer. LooksLive self.old.kept self.new.kept tag sb answer) }
        ensures err { OnErr result (self.new.kept ≡ self.old.kept) }
        ensures dies { DiesStay self.old.kept self.new.kept }
        ensures view { P.told self.new.policy ≡ P.told self.old.policy }
        ensures stands { KeepsStanding self.old.kept self.new.kept }
    {
        self.kept.look_live(tag, sb)
    }

    /// Erases the victim, where it has no live page and no open look stands in it.
    pub fn erase_if(&mut self, tag: Tag, sb: u16) -> Result<EraseAnswer, StepStop>
        ensures room { IsRefused (HasStepRoom self.old.kept) self.old.kept result }
        ensures ok { IfOk result (λ answer. Erases self.old.kept self.new.kept tag sb answer) }
        ensures faults { CountAt fault_of_erase self.old.kept self.new.kept result }
        ensures view { IfOk result (λ answer. P.told self.new.policy ≡ view_of_erase (P.told self.old.policy) sb answer) }
        ensures err_view { OnErr result (P.told self.new.policy ≡ P.told self.old.policy) }
        ensures stands { MovesView self.old.kept (P.told self.old.policy) self.new.kept (P.told self.new.policy) }
    {
        self.kept.erase_if(tag, sb, &mut self.policy)
    }
}

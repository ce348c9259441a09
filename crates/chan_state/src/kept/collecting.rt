// The pick of a victim, its live pages, and its erase.
ghost use Rattle.std.specs.Prelude.{◌≡◌, ◌<◌, ◌≤◌, IfOk, IfSome, IsTrue, OnErr, length, option_map};
ghost use Rattle.ssd_histories.specs.Policies.{answer_of, count_of_candidates, is_candidate_at, view_after_erase};
ghost use Rattle.ssd_histories.specs.Policies.{view_after_pick};
ghost use Rattle.chan_dies.specs.Erasing.{CanCountErases, ErasesBlocks};
ghost use Rattle.chan_tables.specs.Collecting.{MayErase};
ghost use Rattle.chan_tables.specs.TablesState.{HasSpare, tables_after};
ghost use Rattle.chan_state.specs.ChannelState.{DiesStay, KeepsStanding};
ghost use Rattle.chan_state.specs.Collecting.{Erases, IsPickedBy, LooksLive, MovesView, Picks, fault_of_erase, view_of_erase};
ghost use Rattle.chan_state.specs.Collecting.{view_of_pick};
ghost use Rattle.chan_state.specs.Kept.{answer_of_end, kind_of_erase, view_after_end};
ghost use Rattle.chan_state.specs.Steps.{CountAt, HasLookRoom, HasStepRoom, IsRefused};

use super::Kept;
use crate::{EraseAnswer, LiveAnswer, PickAnswer};
use chan_dies::{Dies, EraseEnd};
use chan_tables::{EraseRoom, PickRoom, Tables};
use onfi_cmd::Die;
use ssd_geo::{SbInfo, SbState, StepStop, Tag};
use victim::{Policy, default_victim};

impl<D: Die> Kept<D> {
    /// Makes a sealed superblock with garbage the victim: the one that the policy picks, where that is one of them.
    pub(crate) fn pick<P: Policy>(
        &mut self,
        tag: Tag,
        policy: &mut P,
    ) -> Result<PickAnswer, StepStop>
        ensures room { IsRefused (HasStepRoom self.old) self.old result }
        ensures ok { IfOk result (λ answer. Picks self.old self.new tag answer) }
        ensures choice { IfOk result (λ answer. IsPickedBy self.old (P.told policy.old) answer) }
        ensures view { IfOk result (λ answer. P.told policy.new ≡ view_of_pick self.old (P.told policy.old) answer) }
        ensures err { OnErr result (self.new ≡ self.old) }
        ensures err_view { OnErr result (P.told policy.new ≡ P.told policy.old) }
        ensures dies { DiesStay self.old self.new }
        ensures stands { MovesView self.old (P.told policy.old) self.new (P.told policy.new) }
    {
        self.tables.make_room()?;
        match self.tables.pick_room(&mut self.infos) {
            PickRoom::Busy { sb } => Ok(PickAnswer::Busy { sb }),
            PickRoom::ReadOnly => Ok(PickAnswer::ReadOnly),
            PickRoom::NoGarbage => Ok(PickAnswer::NoGarbage),
            PickRoom::Candidates => {
                let sb = choose(policy, &self.infos);
                self.tables.picked(tag, sb);
                Ok(PickAnswer::Picked { sb })
            }
        }
    }

    /// Looks at the live page of least index in the victim.
    pub(crate) fn look_live(&mut self, tag: Tag, sb: u16) -> Result<LiveAnswer, StepStop>
        ensures room { IsRefused (HasLookRoom self.old) self.old result }
        ensures ok { IfOk result (λ answer. LooksLive self.old self.new tag sb answer) }
        ensures err { OnErr result (self.new ≡ self.old) }
        ensures dies { DiesStay self.old self.new }
        ensures stands { KeepsStanding self.old self.new }
    {
        self.tables.look_live(tag, sb)
    }

    /// Erases the victim, where it has no live page and no open look stands in it.
    pub(crate) fn erase_if<P: Policy>(
        &mut self,
        tag: Tag,
        sb: u16,
        policy: &mut P,
    ) -> Result<EraseAnswer, StepStop>
        ensures room { IsRefused (HasStepRoom self.old) self.old result }
        ensures ok { IfOk result (λ answer. Erases self.old self.new tag sb answer) }
        ensures faults { CountAt fault_of_erase self.old self.new result }
        ensures view { IfOk result (λ answer. P.told policy.new ≡ view_of_erase (P.told policy.old) sb answer) }
        ensures err_view { OnErr result (P.told policy.new ≡ P.told policy.old) }
        ensures stands { MovesView self.old (P.told policy.old) self.new (P.told policy.new) }
    {
        self.tables.make_room()?;
        match self.tables.erase_room(sb) {
            EraseRoom::NotVictim => Ok(EraseAnswer::NotVictim),
            EraseRoom::Live { count } => Ok(EraseAnswer::Live { count }),
            EraseRoom::Pinned { count } => Ok(EraseAnswer::Pinned { count }),
            EraseRoom::May => {
                let end = erase_victim(&mut self.tables, &mut self.dies, tag, sb);
                tell(policy, sb, end);
                Ok(answer_of_erase(end))
            }
        }
    }
}

// The superblock to collect: the policy's answer where it may be picked, else the default victim.
fn choose<P: Policy>(policy: &mut P, infos: &[SbInfo]) -> u16
    requires few { length infos.now ≤ 256 }
    requires some { 0 < count_of_candidates infos.now }
    ensures candidate { IsTrue (is_candidate_at infos.now result) }
    ensures answer { IfSome (P.told policy.old) (λ view. result ≡ answer_of view infos.now) }
    ensures view { P.told policy.new ≡ option_map (λ view. view_after_pick view infos.now) (P.told policy.old) }
{
    let Some(fallback) = default_victim(infos) else {
        unreachable!()
    };
    let answer = ask(policy, infos);
    if may_pick(infos, answer) {
        return answer;
    }
    fallback
}

// What the policy answers, which need not be a superblock that may be picked.
fn ask<P: Policy>(policy: &mut P, infos: &[SbInfo]) -> u16
    requires { length infos.now ≤ 256 }
    ensures answer { IfSome (P.told policy.old) (λ view. result ≡ answer_of view infos.now) }
    ensures view { P.told policy.new ≡ option_map (λ view. view_after_pick view infos.now) (P.told policy.old) }
{
    policy.pick(infos)
}

// Whether a superblock may be picked.
fn may_pick(infos: &[SbInfo], sb: u16) -> bool
    ensures { result ≡ is_candidate_at infos.now sb }
{
    match infos.get(sb as usize) {
        Some(info) => matches!(info.state, SbState::Sealed) && info.live < info.slots,
        None => false,
    }
}

// Erases the blocks of the victim, and records how that ended.
fn erase_victim<D: Die>(tables: &mut Tables, dies: &mut Dies<D>, tag: Tag, sb: u16) -> EraseEnd
    requires spare { HasSpare tables.old }
    requires may { MayErase tables.old.blocks tables.old.rows tables.old.looks sb }
    requires in_range { sb < dies.old.shape.superblocks }
    requires erases { CanCountErases dies.old.shape.dies sb dies.old.dies }
    ensures erases { ErasesBlocks dies.old dies.new sb result }
    ensures entry { tables.new ≡ tables_after tables.old tag (kind_of_erase sb result) }
{
    let end = dies.erase(sb);
    match end {
        EraseEnd::Erased => tables.erased(tag, sb),
        EraseEnd::Failed { die } => tables.bad_erased(tag, sb, die, false),
        EraseEnd::Fault { die } => tables.bad_erased(tag, sb, die, true),
    }
    end
}

// Tells the policy of an erase that was made.
fn tell<P: Policy>(policy: &mut P, sb: u16, end: EraseEnd)
    requires { sb < 256 }
    ensures { P.told policy.new ≡ view_after_end (P.told policy.old) sb end }
{
    if let EraseEnd::Erased = end {
        policy.erased(sb);
    }
}

// What an erase answers, as it ended.
fn answer_of_erase(end: EraseEnd) -> EraseAnswer
    ensures { result ≡ answer_of_end end }
{
    match end {
        EraseEnd::Erased => EraseAnswer::Erased,
        EraseEnd::Failed { die } => EraseAnswer::FailedErase { die },
        EraseEnd::Fault { die } => EraseAnswer::DieFault { die },
    }
}

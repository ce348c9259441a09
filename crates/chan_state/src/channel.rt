// A channel and its steps.
ghost use Rattle.std.specs.Prelude.{◌≡◌, ◌<◌, IfOk, IsTrue, OnErr, OnOk, length, map};
ghost use Rattle.ssd_geo.specs.Coding.{word_bytes_in};
ghost use Rattle.ssd_histories.specs.History.{history_of, open_looks};
ghost use Rattle.ssd_histories.specs.OpenLooks.{without_look};
ghost use Rattle.ssd_histories.specs.Ranges.{has_place};
ghost use Rattle.ssd_geo.specs.declared.kind.Kind.{Kind};
ghost use Rattle.chan_state.specs.ChannelState.{Count, DiesStay, EndsWhole, KeepsStanding, parts_of};
ghost use Rattle.chan_state.specs.Noting.{Notes};
ghost use Rattle.chan_state.specs.Starting.{HasBegun, MayBegin};
ghost use Rattle.chan_state.specs.Steps.{AddsEntry, Ages, CountAt, GivesBits, HasLookRoom, HasStepRoom, IsOpen, IsRefused};
ghost use Rattle.chan_state.specs.Steps.{LeavesFor, LooksAt, MaySense, Senses, SensesFor, fault_of_age, fault_of_sense};
ghost use Rattle.chan_state.specs.Writing.{Writes, WritesFor, fault_of_write};

use crate::kept::Kept;
use crate::{AgeAnswer, BaseParts, LookAnswer, Note, SenseAnswer, WriteAnswer};
use onfi_cmd::Die;
use ssd_geo::{ChannelBase, Entry, Items, Memory, Place, StepStop, Tag};
use std::alloc::Global;
use victim::Policy;

mod collecting;
mod moving;

/// A channel. Contracts see by a relation for which starts and contents it stands: it keeps neither.
#[derive(Drop)]
pub struct Channel<D: Die, P: Policy> {
    kept: Kept<D>,
    policy: P,
}

impl<D: Die, P: Policy> Channel<D, P> {
    /// A channel that begins as an image and what its dies and its policy tell, with a limit of its history's entries.
    pub fn start(
        alloc: Global,
        base: ChannelBase,
        dies: Vec<D>,
        policy: P,
        limit: u32,
    ) -> Result<Channel<D, P>, Memory>
        requires { MayBegin base limit (map D.state dies.items) (P.told policy) }
        ensures begun { IfOk result (λ channel.
            HasBegun base limit (map D.state dies.items) (P.told policy) channel.kept) }
        ensures view { IfOk result (λ channel. P.told channel.policy ≡ P.told policy) }
    {
        let kept = Kept::new(alloc, base, dies, limit)?;
        Ok(Channel { kept, policy })
    }

    /// Looks at a row. A page that it finds stays where it is until the look is left.
    pub fn look(&mut self, tag: Tag, row: u32) -> Result<LookAnswer, StepStop>
        requires { row < self.old.kept.shape.rows }
        ensures room { IsRefused (HasLookRoom self.old.kept) self.old.kept result }
        ensures ok { IfOk result (λ answer. LooksAt self.old.kept self.new.kept tag row answer) }
        ensures err { OnErr result (self.new.kept ≡ self.old.kept) }
        ensures dies { DiesStay self.old.kept self.new.kept }
        ensures view { P.told self.new.policy ≡ P.told self.old.policy }
        ensures stands { KeepsStanding self.old.kept self.new.kept }
    {
        self.kept.look(tag, row)
    }

    /// Senses a page for an open look.
    pub fn sense(
        &mut self,
        tag: Tag,
        at: u32,
        place: Place,
        level: i16,
        out: &mut [u8],
    ) -> SenseAnswer
        requires may { MaySense self.old.kept tag at }
        requires place { IsTrue (has_place self.old.kept.shape place) }
        requires word { length out.old ≡ word_bytes_in self.old.kept.shape }
        ensures entry { Senses self.old.kept self.new.kept tag at place level result }
        ensures looks { self.new.kept.looks ≡ self.old.kept.looks }
        ensures bits { GivesBits self.old.kept place level out.old out.new result }
        ensures faults { Count (fault_of_sense result) self.old.kept self.new.kept }
        ensures view { P.told self.new.policy ≡ P.told self.old.policy }
        ensures stands { SensesFor self.old.kept self.new.kept at place level out.new result }
    {
        self.kept.sense(tag, at, place, level, out)
    }

    /// Ends a look.
    pub fn leave(&mut self, tag: Tag, at: u32)
        requires { IsOpen self.old.kept tag at }
        ensures entry { AddsEntry self.old.kept self.new.kept tag (Kind.Leave at) }
        ensures looks { self.new.kept.looks ≡ without_look self.old.kept.looks at }
        ensures dies { DiesStay self.old.kept self.new.kept }
        ensures view { P.told self.new.policy ≡ P.told self.old.policy }
        ensures stands { LeavesFor self.old.kept self.new.kept at }
    {
        self.kept.leave(tag, at);
    }

    /// Writes a word of a row to the next slot, and the parity of its stripe with the last slot of that.
    pub fn write(&mut self, tag: Tag, row: u32, word: &[u8]) -> Result<WriteAnswer, StepStop>
        requires row { row < self.old.kept.shape.rows }
        requires word { length word.now ≡ word_bytes_in self.old.kept.shape }
        ensures room { IsRefused (HasStepRoom self.old.kept) self.old.kept result }
        ensures ok { IfOk result (λ answer. Writes self.old.kept self.new.kept tag row answer) }
        ensures faults { CountAt fault_of_write self.old.kept self.new.kept result }
        ensures view { P.told self.new.policy ≡ P.told self.old.policy }
        ensures stands { WritesFor self.old.kept self.new.kept tag row word.now }
    {
        self.kept.write(tag, row, word)
    }

    /// Empties a row.
    pub fn trim(&mut self, tag: Tag, row: u32) -> Result<(), StepStop>
        requires { row < self.old.kept.shape.rows }
        ensures room { IsRefused (HasStepRoom self.old.kept) self.old.kept result }
        ensures ok { OnOk result (AddsEntry self.old.kept self.new.kept tag (Kind.Trim row)) }
        ensures err { OnErr result (self.new.kept ≡ self.old.kept) }
        ensures dies { DiesStay self.old.kept self.new.kept }
        ensures view { P.told self.new.policy ≡ P.told self.old.policy }
        ensures stands { KeepsStanding self.old.kept self.new.kept }
    {
        self.kept.trim(tag, row)
    }

    /// Ages a block by an amount.
    pub fn age(&mut self, tag: Tag, die: u8, sb: u16, amount: u16) -> Result<AgeAnswer, StepStop>
        requires die { die < self.old.kept.shape.dies }
        requires superblock { sb < self.old.kept.shape.superblocks }
        ensures room { IsRefused (HasStepRoom self.old.kept) self.old.kept result }
        ensures ok { IfOk result (λ answer. Ages self.old.kept self.new.kept tag die sb amount answer) }
        ensures faults { CountAt fault_of_age self.old.kept self.new.kept result }
        ensures view { P.told self.new.policy ≡ P.told self.old.policy }
        ensures stands { KeepsStanding self.old.kept self.new.kept }
    {
        self.kept.age(tag, die, sb, amount)
    }

    /// Tells how full the channel is.
    pub fn note(&mut self, tag: Tag) -> Result<Note, StepStop>
        ensures room { IsRefused (HasStepRoom self.old.kept) self.old.kept result }
        ensures ok { IfOk result (λ note. Notes self.old.kept self.new.kept tag note) }
        ensures err { OnErr result (self.new.kept ≡ self.old.kept) }
        ensures dies { DiesStay self.old.kept self.new.kept }
        ensures view { P.told self.new.policy ≡ P.told self.old.policy }
        ensures stands { KeepsStanding self.old.kept self.new.kept }
    {
        self.kept.note(tag)
    }

    /// The open looks are those that the past leaves open.
    pub fn keeps_looks(&self)
        ensures { self.now.kept.looks ≡ open_looks self.now.kept.past }
    {
        self.kept.keeps_looks();
    }

    /// The history, oldest entry first.
    pub fn history(&self) -> &[Entry]
        ensures { result.now ≡ history_of self.now.kept.past }
    {
        self.kept.history()
    }

    /// Gives the dies, the history and the changed parts of the base back. All else of the base is as it was at the start.
    pub fn finish(self) -> (Vec<D>, Items<Entry>, BaseParts)
        ensures dies { map D.state result.0.items ≡ self.kept.dies }
        ensures count { length self.kept.dies ≡ self.kept.shape.dies }
        ensures history { result.1 ≡ history_of self.kept.past }
        ensures parts { result.2 ≡ parts_of self.kept }
        ensures whole { EndsWhole self.kept }
    {
        let Channel { kept, .. } = self;
        kept.finish()
    }
}

// What a channel keeps beside its policy, and the steps that need none.
ghost use Rattle.std.specs.Prelude.{◌≡◌, ◌<◌, IfOk, OnErr, OnOk, length, map};
ghost use Rattle.ssd_histories.specs.History.{history_of, open_looks};
ghost use Rattle.ssd_histories.specs.OpenLooks.{without_look};
ghost use Rattle.ssd_geo.specs.declared.kind.Kind.{Kind};
ghost use Rattle.chan_state.specs.ChannelState.{DiesStay, EndsWhole, KeepsStanding, parts_of};
ghost use Rattle.chan_state.specs.Noting.{Notes};
ghost use Rattle.chan_state.specs.Steps.{AddsEntry, HasLookRoom, HasStepRoom, IsOpen, IsRefused, LeavesFor, LooksAt};

use crate::{BaseParts, LookAnswer, Note};
use chan_dies::Dies;
use chan_tables::Tables;
use onfi_cmd::Die;
use ssd_geo::{Entry, Items, SbInfo, StepStop, Tag};
use std::marker::Model;

mod ageing;
mod collecting;
mod moving;
mod sensing;
mod starting;
mod writing;

/// What a channel keeps beside its policy.
#[derive(Drop)]
pub(crate) struct Kept<D: Die> {
    tables: Tables,
    dies: Dies<D>,
    // The table that a policy is told: an item for each superblock.
    infos: Vec<SbInfo>,
}

impl<D: Die> Model for Kept<D> {
    ghost use Rattle.std.specs.Prelude.{length};
    ghost use Rattle.chan_state.specs.ChannelState.{ChannelState};
    ghost use Rattle.chan_state.specs.Kept.{AreFitting, channel_of};

    ghost Value = { ChannelState };

    ghost view = { λ a. channel_of a.tables a.dies };

    ghost invariant = { λ a. AreFitting a.tables a.dies (length a.infos.items) };
}

impl<D: Die> Kept<D> {
    /// Looks at a row.
    pub(crate) fn look(&mut self, tag: Tag, row: u32) -> Result<LookAnswer, StepStop>
        requires { row < self.old.shape.rows }
        ensures room { IsRefused (HasLookRoom self.old) self.old result }
        ensures ok { IfOk result (λ answer. LooksAt self.old self.new tag row answer) }
        ensures err { OnErr result (self.new ≡ self.old) }
        ensures dies { DiesStay self.old self.new }
        ensures stands { KeepsStanding self.old self.new }
    {
        self.tables.look(tag, row)
    }

    /// Ends a look.
    pub(crate) fn leave(&mut self, tag: Tag, at: u32)
        requires { IsOpen self.old tag at }
        ensures entry { AddsEntry self.old self.new tag (Kind.Leave at) }
        ensures looks { self.new.looks ≡ without_look self.old.looks at }
        ensures dies { DiesStay self.old self.new }
        ensures stands { LeavesFor self.old self.new at }
    {
        self.tables.left(tag, at);
    }

    /// Empties a row.
    pub(crate) fn trim(&mut self, tag: Tag, row: u32) -> Result<(), StepStop>
        requires { row < self.old.shape.rows }
        ensures room { IsRefused (HasStepRoom self.old) self.old result }
        ensures ok { OnOk result (AddsEntry self.old self.new tag (Kind.Trim row)) }
        ensures err { OnErr result (self.new ≡ self.old) }
        ensures dies { DiesStay self.old self.new }
        ensures stands { KeepsStanding self.old self.new }
    {
        self.tables.trimmed(tag, row)
    }

    /// Tells how full the channel is.
    pub(crate) fn note(&mut self, tag: Tag) -> Result<Note, StepStop>
        ensures room { IsRefused (HasStepRoom self.old) self.old result }
        ensures ok { IfOk result (λ note. Notes self.old self.new tag note) }
        ensures err { OnErr result (self.new ≡ self.old) }
        ensures dies { DiesStay self.old self.new }
        ensures stands { KeepsStanding self.old self.new }
    {
        self.tables.noted(tag, &mut self.infos)
    }

    /// The open looks are those that the past leaves open.
    pub(crate) fn keeps_looks(&self)
        ensures { self.now.looks ≡ open_looks self.now.past }
    {
        self.tables.keeps_looks();
    }

    /// The history, oldest entry first.
    pub(crate) fn history(&self) -> &[Entry]
        ensures { result.now ≡ history_of self.now.past }
    {
        self.tables.history()
    }

    /// Gives the dies, the history and the changed parts of the base back.
    pub(crate) fn finish(self) -> (Vec<D>, Items<Entry>, BaseParts)
        ensures dies { map D.state result.0.items ≡ self.dies }
        ensures count { length self.dies ≡ self.shape.dies }
        ensures history { result.1 ≡ history_of self.past }
        ensures parts { result.2 ≡ parts_of self }
        ensures whole { EndsWhole self }
    {
        let Kept { tables, dies, .. } = self;
        let (dies, sum) = dies.into_parts();
        let (blocks, rows, history) = tables.into_parts();
        (dies, history, BaseParts { blocks, rows, sum })
    }
}

// What becomes of the page of an open look.
ghost use Rattle.std.specs.Prelude.{◌≡◌, IfSome, IsFalse, IsSome, IsTrue, length};
ghost use Rattle.ssd_geo.specs.Coding.{word_bytes_in};
ghost use Rattle.ssd_histories.specs.History.{look_by};
ghost use Rattle.ssd_histories.specs.OpenLooks.{look_at};
ghost use Rattle.ssd_histories.specs.Ranges.{has_slot};
ghost use Rattle.chan_dies.specs.Programming.{Programs};
ghost use Rattle.chan_fits.specs.DiesFit.{AreDue};
ghost use Rattle.chan_tables.specs.Condemning.{IsCondemnAnswer, kind_of_condemn};
ghost use Rattle.chan_tables.specs.Copying as Copying;
ghost use Rattle.chan_tables.specs.TablesState.{ends_recovered, tables_after};
ghost use Rattle.chan_state.specs.ChannelState.{Count, DiesStay};
ghost use Rattle.chan_state.specs.Condemning.{CondemnsFor, MayCondemn};
ghost use Rattle.chan_state.specs.Copying.{IsMoveAnswer, MayMove, Moves, MovesFor, fault_of_move};
ghost use Rattle.chan_state.specs.Kept.{answer_of_copy, kind_of_copy};
ghost use Rattle.chan_state.specs.Steps.{AddsEntry};

use super::Kept;
use crate::{CondemnAnswer, MoveAnswer};
use chan_dies::{Dies, ProgramEnd};
use chan_tables::{MoveRoom, Tables};
use onfi_cmd::Die;
use ssd_geo::{Slot, Tag};

impl<D: Die> Kept<D> {
    /// Copies a look's page to the next slot, where its row is as the look found it and there is room.
    pub(crate) fn move_if(&mut self, tag: Tag, at: u32, word: &[u8]) -> MoveAnswer
        requires may { MayMove self.old tag at }
        requires word { length word.now ≡ word_bytes_in self.old.shape }
        ensures answer { IfSome (look_by tag (look_at self.old.looks at)) (λ look.
            IsMoveAnswer self.old look result) }
        ensures entry { Moves self.old self.new tag at result }
        ensures looks { self.new.looks ≡ self.old.looks }
        ensures faults { Count (fault_of_move result) self.old self.new }
        ensures stands { MovesFor self.old self.new at word.now }
    {
        match self.tables.move_room(at) {
            MoveRoom::Changed { row } => {
                self.tables.changed(tag, at, row);
                MoveAnswer::Changed { row }
            }
            MoveRoom::ReadOnly => {
                self.tables.stayed(tag, at, true);
                MoveAnswer::ReadOnly
            }
            MoveRoom::NoRoom => {
                self.tables.stayed(tag, at, false);
                MoveAnswer::NoRoom
            }
            MoveRoom::Slot { slot } => {
                let end = copy_to(&mut self.tables, &mut self.dies, tag, at, slot, word);
                answer_of(slot, end)
            }
        }
    }

    /// Makes the row of a look lost, where it is as the look found it.
    pub(crate) fn condemn_if(&mut self, tag: Tag, at: u32) -> CondemnAnswer
        requires { MayCondemn self.old tag at }
        ensures answer { IfSome (look_by tag (look_at self.old.looks at)) (λ look.
            IsCondemnAnswer self.old.rows look result) }
        ensures entry { AddsEntry self.old self.new tag (kind_of_condemn at result) }
        ensures looks { self.new.looks ≡ self.old.looks }
        ensures dies { DiesStay self.old self.new }
        ensures stands { CondemnsFor self.old self.new at }
    {
        self.tables.condemned(tag, at)
    }
}

// Programs a word into the slot for a copy, and records how that ended.
fn copy_to<D: Die>(
    tables: &mut Tables,
    dies: &mut Dies<D>,
    tag: Tag,
    at: u32,
    slot: Slot,
    word: &[u8],
) -> ProgramEnd
    requires open { IsSome (look_at tables.old.looks at) }
    requires not_recovered { IsFalse (ends_recovered tables.old.past at) }
    requires may { IfSome (look_at tables.old.looks at) (λ pin.
        Copying.MayCopy tables.old.blocks tables.old.rows pin.1 slot) }
    requires in_range { IsTrue (has_slot dies.old.shape slot) }
    requires due { AreDue dies.old.shape tables.old.blocks dies.old.dies }
    requires word { length word.now ≡ word_bytes_in dies.old.shape }
    ensures programs { Programs dies.old dies.new slot word.now result }
    ensures entry { tables.new ≡ tables_after tables.old tag (kind_of_copy at slot result) }
{
    let end = dies.program(slot, word);
    match end {
        ProgramEnd::Programmed => tables.moved(tag, at, slot),
        ProgramEnd::Failed { die } => tables.bad_copied(tag, at, slot, die, false),
        ProgramEnd::Fault { die } => tables.bad_copied(tag, at, slot, die, true),
    }
    end
}

// What a move answers, as its program ended.
fn answer_of(slot: Slot, end: ProgramEnd) -> MoveAnswer
    ensures { result ≡ answer_of_copy slot end }
{
    match end {
        ProgramEnd::Programmed => MoveAnswer::Moved { slot },
        ProgramEnd::Failed { .. } => MoveAnswer::Failed { sb: slot.sb },
        ProgramEnd::Fault { die } => MoveAnswer::DieFault { die },
    }
}

// The writes of rows.
ghost use Rattle.std.specs.Prelude.{◌≡◌, ◌<◌, IfOk, IsTrue, Some, length};
ghost use Rattle.ssd_geo.specs.Coding.{word_bytes_in};
ghost use Rattle.ssd_histories.specs.Blocks.{blocks_have_room, next_slot_of};
ghost use Rattle.ssd_histories.specs.Ranges.{has_slot};
ghost use Rattle.chan_dies.specs.Programming.{Programs};
ghost use Rattle.chan_fits.specs.DiesFit.{AreDue};
ghost use Rattle.chan_tables.specs.TablesState.{HasSpare, tables_after};
ghost use Rattle.chan_state.specs.Kept.{answer_of_write, kind_of_write};
ghost use Rattle.chan_state.specs.Steps.{CountAt, HasStepRoom, IsRefused};
ghost use Rattle.chan_state.specs.Writing.{Writes, WritesFor, fault_of_write};

use super::Kept;
use crate::WriteAnswer;
use chan_dies::{Dies, ProgramEnd};
use chan_tables::{Tables, WriteRoom};
use onfi_cmd::Die;
use ssd_geo::{Slot, StepStop, Tag};

impl<D: Die> Kept<D> {
    /// Writes a word of a row to the next slot, where the host has room.
    pub(crate) fn write(&mut self, tag: Tag, row: u32, word: &[u8]) -> Result<WriteAnswer, StepStop>
        requires row { row < self.old.shape.rows }
        requires word { length word.now ≡ word_bytes_in self.old.shape }
        ensures room { IsRefused (HasStepRoom self.old) self.old result }
        ensures ok { IfOk result (λ answer. Writes self.old self.new tag row answer) }
        ensures faults { CountAt fault_of_write self.old self.new result }
        ensures stands { WritesFor self.old self.new tag row word.now }
    {
        self.tables.make_room()?;
        match self.tables.write_room(&mut self.infos) {
            WriteRoom::Slot { slot } => {
                let end = write_slot(&mut self.tables, &mut self.dies, tag, row, slot, word);
                Ok(answer_of(slot, end))
            }
            WriteRoom::ReadOnly => {
                self.tables.refused(tag, row, true);
                Ok(WriteAnswer::ReadOnly)
            }
            WriteRoom::Full => {
                self.tables.refused(tag, row, false);
                Ok(WriteAnswer::Full)
            }
            WriteRoom::NeedRoom => Ok(WriteAnswer::NeedRoom),
        }
    }
}

// Programs a word into the next slot, and records how that ended.
fn write_slot<D: Die>(
    tables: &mut Tables,
    dies: &mut Dies<D>,
    tag: Tag,
    row: u32,
    slot: Slot,
    word: &[u8],
) -> ProgramEnd
    requires spare { HasSpare tables.old }
    requires row { row < tables.old.shape.rows }
    requires room { IsTrue (blocks_have_room tables.old.blocks) }
    requires next { next_slot_of tables.old.blocks ≡ Some slot }
    requires in_range { IsTrue (has_slot dies.old.shape slot) }
    requires due { AreDue dies.old.shape tables.old.blocks dies.old.dies }
    requires word { length word.now ≡ word_bytes_in dies.old.shape }
    ensures programs { Programs dies.old dies.new slot word.now result }
    ensures entry { tables.new ≡ tables_after tables.old tag (kind_of_write row slot result) }
{
    let end = dies.program(slot, word);
    match end {
        ProgramEnd::Programmed => tables.written(tag, row, slot),
        ProgramEnd::Failed { die } => tables.bad_written(tag, row, slot, die, false),
        ProgramEnd::Fault { die } => tables.bad_written(tag, row, slot, die, true),
    }
    end
}

// What a write answers, as its program ended.
fn answer_of(slot: Slot, end: ProgramEnd) -> WriteAnswer
    ensures { result ≡ answer_of_write slot end }
{
    match end {
        ProgramEnd::Programmed => WriteAnswer::Written { slot },
        ProgramEnd::Failed { .. } => WriteAnswer::Failed { sb: slot.sb },
        ProgramEnd::Fault { die } => WriteAnswer::DieFault { die },
    }
}

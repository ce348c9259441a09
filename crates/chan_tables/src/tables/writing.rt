// The room for a write, and its end.
ghost use Rattle.std.specs.Prelude.{◌≡◌, ◌+◌, ◌^◌, ◌<◌, ◌≤◌, ◌↔◌, IfSome, IsSome, IsTrue, None, Some, OnErr, OnOk, length, if◌then◌else◌};
ghost use Rattle.ssd_histories.specs.Blocks.{AreSound, has_any_room, blocks_have_room, next_slot_of, are_blocks_full};
ghost use Rattle.ssd_geo.specs.PageHead.{serial_of_call};
ghost use Rattle.ssd_geo.specs.declared.kind.Kind.{Kind};
ghost use Rattle.chan_tables.specs.TablesState.{tables_after, IsStopped, room_of_step, HasSpare};
ghost use Rattle.chan_tables.specs.Writing.{IsWriteRoom};

use super::Tables;
use super::filling::candidate_count;
use super::moving::victim_live;
use crate::WriteRoom;
use allocator::Blocks;
use ssd_geo::{Kind, Row, SbInfo, Slot, StepStop, Tag};

impl Tables {
    /// Where a write may go. It may fill the table of the superblocks.
    pub fn write_room(&self, infos: &mut [SbInfo]) -> WriteRoom
        requires { length infos.old ≡ self.now.shape.superblocks }
        ensures { IsWriteRoom self.now result }
    {
        if let Some(slot) = host_slot(&self.blocks) {
            return WriteRoom::Slot { slot };
        }
        if self.blocks.worn(victim_live(&self.rows, &self.blocks)) {
            return WriteRoom::ReadOnly;
        }
        self.fill_table(infos);
        if is_full(&self.blocks, candidate_count(infos)) {
            WriteRoom::Full
        } else {
            WriteRoom::NeedRoom
        }
    }

    /// Uses the next slot for a write of a row, which names it from then on.
    pub fn written(&mut self, tag: Tag, row: u32, slot: Slot)
        requires spare { HasSpare self.old }
        requires row { row < self.old.shape.rows }
        requires room { IsTrue (blocks_have_room self.old.blocks) }
        requires next { next_slot_of self.old.blocks ≡ Some slot }
        ensures { self.new ≡ tables_after self.old tag (Kind.Write row slot) }
    {
        let serial = serial_of(self.session, tag);
        self.use_slot(row, slot, serial);
        self.add(tag, Kind::Write { row, slot });
    }

    /// Takes the superblock of the next slot out of use, after a write's program failed in it.
    pub fn bad_written(&mut self, tag: Tag, row: u32, slot: Slot, die: u8, fault: bool)
        requires spare { HasSpare self.old }
        requires next { next_slot_of self.old.blocks ≡ Some slot }
        ensures { self.new ≡ tables_after self.old tag (Kind.BadWrite row slot die fault) }
    {
        self.retire_next(slot);
        self.add(
            tag,
            Kind::BadWrite {
                row,
                slot,
                die,
                fault,
            },
        );
    }

    /// Records a write that wasn't made for want of room.
    pub fn refused(&mut self, tag: Tag, row: u32, worn: bool)
        requires { HasSpare self.old }
        ensures { self.new ≡ tables_after self.old tag (Kind.Refused row worn) }
    {
        self.add(tag, Kind::Refused { row, worn });
    }

    /// Empties a row.
    pub fn trimmed(&mut self, tag: Tag, row: u32) -> Result<(), StepStop>
        requires { row < self.old.shape.rows }
        ensures room { IsStopped (length self.old.past + room_of_step self.old.looks ≤ self.old.limit)
            (length self.old.past) result }
        ensures ok { OnOk result
            (self.new ≡ tables_after (record self.old { room = self.new.room }) tag (Kind.Trim row)) }
        ensures err { OnErr result (self.new ≡ record self.old { room = self.new.room }) }
    {
        self.make_room()?;
        let _ = self.rows.set(row, Row::Empty);
        self.add(tag, Kind::Trim { row });
        Ok(())
    }
}

// The next slot, where the host has room.
fn host_slot(blocks: &Blocks) -> Option<Slot>
    ensures slot { result ≡ (if blocks_have_room blocks.now.blocks then next_slot_of blocks.now.blocks else None) }
    ensures next { IfSome result (λ slot. next_slot_of blocks.now.blocks ≡ Some slot) }
    ensures room { IsSome result ↔ IsTrue (blocks_have_room blocks.now.blocks) }
    ensures any { IsSome result → IsTrue (has_any_room blocks.now.blocks) }
    ensures in_range { IfSome result (λ slot. (slot.sb < length blocks.now.blocks) × (slot.index < blocks.now.slots)) }
    ensures sound { IsSome result → AreSound blocks.now.slots blocks.now.blocks }
{
    if blocks.host_room() {
        blocks.next_slot()
    } else {
        None
    }
}

// Whether all room for the host is taken by live pages, where so many superblocks have garbage.
fn is_full(blocks: &Blocks, garbage: u16) -> bool
    ensures { result ≡ are_blocks_full blocks.now.blocks garbage }
{
    blocks.free_count() >= 1 && !blocks.host_room() && blocks.victim().is_none() && garbage == 0
}

// The serial of a call's write, which names the session too.
fn serial_of(session: u32, tag: Tag) -> u64
    requires { session < 2 ^ 24 }
    ensures { result ≡ serial_of_call session tag.actor tag.call }
{
    ((session as u64) << 40) + ((tag.actor as u64) << 32) + tag.call as u64
}

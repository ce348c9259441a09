// What becomes of the page of an open look.
ghost use Rattle.std.specs.Prelude.{◌≡◌, ◌<◌, ◌↔◌, IfSome, IsFalse, IsSome, IsTrue, length, slice_set, if◌then◌else◌};
ghost use Rattle.ssd_histories.specs.Lawful.{page_looked_at};
ghost use Rattle.ssd_histories.specs.OpenLooks.{look_at};
ghost use Rattle.ssd_geo.specs.Superblock.{slots_of};
ghost use Rattle.ssd_geo.specs.declared.kind.Kind.{Kind};
ghost use Rattle.ssd_geo.specs.declared.row.Row.{Row};
ghost use Rattle.chan_tables.specs.Copying.{is_in_victim, copy_slot_of, live_in_victim, is_worn_with, MayCopy, IsMoveRoom, NamesInRange};
ghost use Rattle.chan_tables.specs.TablesState.{tables_after, ends_recovered};
ghost use Rattle.chan_tables.specs.declared.rooms.MoveRoom.TheVariants as room;

use super::Tables;
use crate::MoveRoom;
use allocator::Blocks;
use map_rows::Rows;
use ssd_geo::{Kind, Look, Row, Slot, Tag};

impl Tables {
    /// Where a copy of a look's page may go.
    pub fn move_room(&self, at: u32) -> MoveRoom
        requires { IsSome (look_at self.now.looks at) }
        ensures value { IfSome (look_at self.now.looks at) (λ pin.
            IsMoveRoom (slots_of self.now.shape.pages self.now.shape.dies) self.now.blocks self.now.rows pin.1 result) }
        ensures in_rows { IfSome (look_at self.now.looks at) (λ pin. pin.1.row < self.now.shape.rows) }
        ensures in_range { NamesInRange self.now.shape.superblocks
            (slots_of self.now.shape.pages self.now.shape.dies) result }
    {
        let (_, look) = self.looks.find(at).unwrap();
        room_to_move(&self.rows, &self.blocks, &look)
    }

    /// Uses the slot for a copy of a look's page, and names it in the look's row.
    pub fn moved(&mut self, tag: Tag, at: u32, slot: Slot)
        requires open { IsSome (look_at self.old.looks at) }
        requires not_recovered { IsFalse (ends_recovered self.old.past at) }
        requires may { IfSome (look_at self.old.looks at) (λ pin. MayCopy self.old.blocks self.old.rows pin.1 slot) }
        ensures rows { IfSome (look_at self.old.looks at) (λ pin.
            self.new.rows ≡ slice_set self.old.rows pin.1.row (Row.Page slot pin.1.serial)) }
        ensures new { self.new ≡ tables_after self.old tag (Kind.Move at slot) }
    {
        let (_, look) = self.looks.find(at).unwrap();
        self.use_slot(look.row, slot, look.serial);
        self.add_of_look(tag, at, Kind::Move { at, slot });
    }

    /// Records a copy that wasn't made for want of room.
    pub fn stayed(&mut self, tag: Tag, at: u32, worn: bool)
        requires open { IsSome (look_at self.old.looks at) }
        requires not_recovered { IsFalse (ends_recovered self.old.past at) }
        ensures { self.new ≡ tables_after self.old tag (Kind.Stay at worn) }
    {
        self.add_of_look(tag, at, Kind::Stay { at, worn });
    }

    /// Records a copy that wasn't made, since the row of the look is another.
    pub fn changed(&mut self, tag: Tag, at: u32, row: Row)
        requires open { IsSome (look_at self.old.looks at) }
        requires not_recovered { IsFalse (ends_recovered self.old.past at) }
        ensures { self.new ≡ tables_after self.old tag (Kind.Changed at row) }
    {
        self.add_of_look(tag, at, Kind::Changed { at, found: row });
    }

    /// Takes the superblock of the slot for a copy out of use, after the copy's program failed in it.
    pub fn bad_copied(&mut self, tag: Tag, at: u32, slot: Slot, die: u8, fault: bool)
        requires open { IsSome (look_at self.old.looks at) }
        requires not_recovered { IsFalse (ends_recovered self.old.past at) }
        requires may { IfSome (look_at self.old.looks at) (λ pin. MayCopy self.old.blocks self.old.rows pin.1 slot) }
        ensures { self.new ≡ tables_after self.old tag (Kind.BadCopy at slot die fault) }
    {
        self.retire_next(slot);
        self.add_of_look(
            tag,
            at,
            Kind::BadCopy {
                at,
                slot,
                die,
                fault,
            },
        );
    }
}

// Where a copy of a look's page may go, by the parts of the tables.
fn room_to_move(rows: &Rows, blocks: &Blocks, look: &Look) -> MoveRoom
    requires row { look.now.row < length rows.now.rows }
    requires superblocks { rows.now.superblocks ≡ length blocks.now.blocks }
    requires slots { rows.now.slots ≡ blocks.now.slots }
    ensures value { IsMoveRoom blocks.now.slots blocks.now.blocks rows.now.rows look.now result }
    ensures in_range { NamesInRange rows.now.superblocks rows.now.slots result }
{
    let row = rows.row(look.row);
    if !is_page_of(&row, look) {
        return MoveRoom::Changed { row };
    }
    match copy_slot(blocks, look) {
        Some(slot) => MoveRoom::Slot { slot },
        None => without_slot(rows, blocks),
    }
}

// What is told where there is no slot for a copy.
fn without_slot(rows: &Rows, blocks: &Blocks) -> MoveRoom
    requires { rows.now.superblocks ≡ length blocks.now.blocks }
    ensures { result ≡ (if is_worn_with blocks.now.slots blocks.now.blocks rows.now.rows
        then room.ReadOnly else room.NoRoom) }
{
    if blocks.worn(victim_live(rows, blocks)) {
        MoveRoom::ReadOnly
    } else {
        MoveRoom::NoRoom
    }
}

// The live pages of the victim: 0 without one.
pub(super) fn victim_live(rows: &Rows, blocks: &Blocks) -> u32
    requires { rows.now.superblocks ≡ length blocks.now.blocks }
    ensures { result ≡ live_in_victim blocks.now.blocks rows.now.rows }
{
    match blocks.victim() {
        Some(sb) => rows.live(sb),
        None => 0,
    }
}

// Whether a row holds the page that a look found.
pub(super) fn is_page_of(row: &Row, look: &Look) -> bool
    ensures { IsTrue result ↔ row.now ≡ page_looked_at look.now }
{
    *row == Row::Page {
        slot: look.slot,
        serial: look.serial,
    }
}

// The slot for a copy of a look's page.
fn copy_slot(blocks: &Blocks, look: &Look) -> Option<Slot>
    ensures value { result ≡ copy_slot_of blocks.now.blocks look.now }
    ensures in_range { IfSome result (λ slot. (slot.sb < length blocks.now.blocks) × (slot.index < blocks.now.slots)) }
{
    if blocks.host_room() || is_in_victim(blocks, look) {
        blocks.next_slot()
    } else {
        None
    }
}

// Whether a look stands in the victim.
fn is_in_victim(blocks: &Blocks, look: &Look) -> bool
    ensures { result ≡ is_in_victim blocks.now.blocks look.now }
{
    match blocks.victim() {
        Some(victim) => victim == look.slot.sb,
        None => false,
    }
}

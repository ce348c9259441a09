// What several steps do: they add an entry, use the next slot, or take its superblock out of use.
ghost use Rattle.std.specs.Prelude.{◌≡◌, ◌<◌, ◌∷◌, IsSome, Some, slice_set};
ghost use Rattle.ssd_histories.specs.Blocks.{next_slot_of, with_next_used, with_retired};
ghost use Rattle.ssd_histories.specs.OpenLooks.{look_at};
ghost use Rattle.ssd_histories.specs.SerialCalls.{entry_of};
ghost use Rattle.ssd_geo.specs.Superblock.{slots_of};
ghost use Rattle.ssd_geo.specs.declared.row.Row.{Row};
ghost use Rattle.chan_tables.specs.TablesState.{HasSpare, KeepsLooks, UsesOne};

use super::Tables;
use ssd_geo::{Entry, Kind, Row, Slot, Tag};

impl Tables {
    // Adds an entry of a step outside a look.
    pub(super) fn add(&mut self, tag: Tag, kind: Kind)
        requires spare { HasSpare self.old }
        requires keeps { KeepsLooks tag kind }
        ensures { self.new ≡ record self.old { past = entry_of tag kind ∷ self.old.past } }
    {
        self.history.push(Entry { tag, kind });
    }

    // Adds an entry of an open look, which has set it aside.
    pub(super) fn add_of_look(&mut self, tag: Tag, at: u32, kind: Kind)
        requires open { IsSome (look_at self.old.looks at) }
        requires keeps { KeepsLooks tag kind }
        requires uses { UsesOne self.old.past (entry_of tag kind) at }
        ensures { self.new ≡ record self.old { past = entry_of tag kind ∷ self.old.past } }
    {
        self.history.push(Entry { tag, kind });
    }

    // Uses the next slot, and names it in a row.
    pub(super) fn use_slot(&mut self, row: u32, slot: Slot, serial: u64)
        requires row { row < self.old.shape.rows }
        requires next { next_slot_of self.old.blocks ≡ Some slot }
        ensures { let slots = slots_of self.old.shape.pages self.old.shape.dies in
            self.new ≡ record self.old {
              rows = slice_set self.old.rows row (Row.Page slot serial);
              blocks = with_next_used slots self.old.blocks;
            } }
    {
        prove!(self.blocks.next_slot() == Some(slot));
        let _ = self.blocks.take_slot();
        let _ = self.rows.set(row, Row::Page { slot, serial });
    }

    // Takes the superblock of the next slot out of use.
    pub(super) fn retire_next(&mut self, slot: Slot)
        requires { next_slot_of self.old.blocks ≡ Some slot }
        ensures { self.new ≡ record self.old { blocks = with_retired self.old.blocks slot.sb } }
    {
        self.blocks.retire(slot.sb);
    }
}

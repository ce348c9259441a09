// Looks, their senses and their ends.
ghost use Rattle.std.specs.Prelude.{◌≡◌, ◌+◌, ◌<◌, ◌≤◌, ◌++◌, ◌∷◌, [], IfErr, IfOk, IsFalse, IsSome, IsTrue, None, OnErr, OnOk, length};
ghost use Rattle.ssd_histories.specs.Lawful.{has_fault_sense};
ghost use Rattle.ssd_histories.specs.OpenLooks.{look_at};
ghost use Rattle.ssd_histories.specs.PageMap.{names_within, row_at};
ghost use Rattle.ssd_histories.specs.Ranges.{has_row};
ghost use Rattle.ssd_geo.specs.Superblock.{slots_of};
ghost use Rattle.ssd_geo.specs.Stripe.{is_closed, stripe_of_index};
ghost use Rattle.ssd_geo.specs.declared.kind.Kind.{Kind};
ghost use Rattle.chan_tables.specs.TablesState.{tables_after, IsStopped, room_of_look, is_closed_row, LooksIn, senses_had};

use super::{Tables, look_room};
use crate::LookAnswer;
use allocator::Blocks;
use block_pins::Pins;
use ssd_geo::{Entry, Kind, Look, Place, Row, Shape, Slot, StepStop, Tag};

impl Tables {
    /// Looks at a row, and opens the look where the row names a page.
    pub fn look(&mut self, tag: Tag, row: u32) -> Result<LookAnswer, StepStop>
        requires { row < self.old.shape.rows }
        ensures room { IsStopped (length self.old.past + room_of_look self.old.looks ≤ self.old.limit)
            (length self.old.past) result }
        ensures ok { IfOk result (λ answer. LooksIn self.old self.new tag row answer) }
        ensures in_range { OnOk result (IsTrue (has_row self.old.shape (row_at self.old.rows row))) }
        ensures is_first { OnOk result (look_at self.old.looks (length self.old.past) ≡ None) }
        ensures err { OnErr result (self.new ≡ record self.old { room = self.new.room }) }
    {
        let at = self.history.length();
        self.history.make_room(look_room(&self.looks))?;
        let found = self.rows.row(row);
        let closed = is_closed_page(&self.shape, &self.blocks, found);
        let answer = match found {
            Row::Empty => LookAnswer::Empty,
            Row::Lost => LookAnswer::Lost,
            Row::Page { slot, serial } => {
                let look = Look {
                    at,
                    row,
                    slot,
                    serial,
                    closed,
                };
                pinned(&mut self.looks, tag, look)?;
                LookAnswer::Found(look)
            }
        };
        self.history.push(Entry {
            tag,
            kind: Kind::Look { row, found, closed },
        });
        Ok(answer)
    }

    /// Records a sense of an open look.
    pub fn sensed(&mut self, tag: Tag, at: u32, place: Place, level: i16)
        requires open { IsSome (look_at self.old.looks at) }
        requires few { senses_had self.old.past at < 168 }
        ensures { self.new ≡ tables_after self.old tag (Kind.Sense at place level) }
    {
        self.add_of_look(tag, at, Kind::Sense { at, place, level });
    }

    /// Records a sense of an open look in which the die failed.
    pub fn fault_sensed(&mut self, tag: Tag, at: u32, place: Place, level: i16)
        requires open { IsSome (look_at self.old.looks at) }
        requires first { IsFalse (has_fault_sense self.old.past at) }
        ensures { self.new ≡ tables_after self.old tag (Kind.FaultSense at place level) }
    {
        self.add_of_look(tag, at, Kind::FaultSense { at, place, level });
    }

    /// Ends an open look.
    pub fn left(&mut self, tag: Tag, at: u32)
        requires { IsSome (look_at self.old.looks at) }
        ensures { self.new ≡ tables_after self.old tag (Kind.Leave at) }
    {
        let _ = self.looks.unpin(at);
        self.history.push(Entry {
            tag,
            kind: Kind::Leave { at },
        });
    }
}

// Whether a row holds a page of a closed stripe.
fn is_closed_page(shape: &Shape, blocks: &Blocks, found: Row) -> bool
    requires count { length blocks.now.blocks ≡ shape.now.superblocks }
    requires within { IsTrue (names_within shape.now.superblocks (slots_of shape.now.pages shape.now.dies) found) }
    ensures { result ≡ is_closed_row shape.now blocks.now.blocks found }
{
    match found {
        Row::Page { slot, .. } => is_closed_slot(shape, slot, blocks.block(slot.sb).used),
        _ => false,
    }
}

// Whether the stripe of a slot is closed, where its superblock has so many slots used.
fn is_closed_slot(shape: &Shape, slot: Slot, used: u32) -> bool
    requires { slot.index < slots_of shape.now.pages shape.now.dies }
    ensures { result ≡ is_closed shape.now.dies used (stripe_of_index shape.now.dies slot.index) }
{
    let data = shape.dies as u32 - 1;
    (slot.index / data + 1) * data <= used
}

// Opens a look.
fn pinned(looks: &mut Pins, tag: Tag, look: Look) -> Result<(), StepStop>
    ensures ok { OnOk result (looks.new ≡ looks.old ++ (tag, look) ∷ []) }
    ensures err { OnErr result (looks.new ≡ looks.old) }
    ensures memory { IfErr result (λ stop. stop ≡ StepStop.Memory) }
{
    match looks.pin(tag, look) {
        Ok(()) => Ok(()),
        Err(Memory) => Err(StepStop::Memory),
    }
}

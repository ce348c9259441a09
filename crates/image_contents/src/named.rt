ghost use Rattle.std.specs.Prelude.{◌≡◌, ◌++◌, ◌∷◌, [], ◌<◌, IfOk, IsTrue, OnOk};
ghost use Rattle.std.specs.List.{list_any};
ghost use Rattle.ssd_geo.specs.Superblock.{slots_of};
ghost use Rattle.image_contents.specs.RowMarks.{AreMarks};
ghost use Rattle.ssd_histories.specs.PageMap.{names_slot, names_within};

use ssd_geo::{Memory, Row, Shape, Slot};
use std::alloc::Global;

/// The rows of a channel that were read so far, with a mark for each slot that one of them names, so that none is looked
/// through again.
#[derive(Drop)]
pub struct NamedRows {
    pub(crate) rows: Vec<Row>,
    /// How many superblocks the channel has, and how many slots each.
    pub(crate) superblocks: u16,
    pub(crate) slots: u32,
    marks: Vec<bool>,
    ghost marked: { AreMarks superblocks slots rows.items marks.items },
}

impl NamedRows {
    /// No rows, in a channel of a drive of a shape.
    pub fn new(alloc: Global, shape: &Shape) -> Result<NamedRows, Memory>
        ensures rows { IfOk result (λ named. named.rows.items ≡ []) }
        ensures superblocks { IfOk result (λ named. named.superblocks ≡ shape.now.superblocks) }
        ensures slots { IfOk result (λ named. named.slots ≡ slots_of shape.now.pages shape.now.dies) }
    {
        let slots = shape.slots();
        let count = shape.superblocks as usize * slots as usize;
        let marks = vec![in alloc; false; count].map_err(|_| Memory)?;
        Ok(NamedRows {
            rows: Vec::new(alloc),
            superblocks: shape.superblocks,
            slots,
            marks,
        })
    }

    /// Whether a row names a slot.
    pub fn is_named(&self, slot: Slot) -> bool
        requires superblock { slot.sb < self.now.superblocks }
        requires index { slot.index < self.now.slots }
        ensures { result ≡ list_any (names_slot slot) self.now.rows.items }
    {
        self.marks[slot.sb as usize * self.slots as usize + slot.index as usize]
    }

    /// One more row. Without memory for it none is added.
    pub fn push(&mut self, row: Row) -> Result<(), Memory>
        requires { IsTrue (names_within self.old.superblocks self.old.slots row) }
        ensures rows { OnOk result (self.new.rows.items ≡ self.old.rows.items ++ row ∷ []) }
        ensures superblocks { self.new.superblocks ≡ self.old.superblocks }
        ensures slots { self.new.slots ≡ self.old.slots }
    {
        self.rows.push(row).map_err(|_| Memory)?;
        if let Row::Page { slot, .. } = row {
            self.marks[slot.sb as usize * self.slots as usize + slot.index as usize] = true;
        }
        Ok(())
    }

    /// The rows.
    pub fn into_rows(self) -> Vec<Row>
        ensures { result ≡ self.rows }
    {
        self.rows
    }
}

ghost use Rattle.std.specs.Prelude.{◌≡◌, ℕ, ◌<◌, ◌↔◌, IfOk, IfSome, IsNone, IsSome, IsTrue, Some, filter_map, length, min, replicate, slice_set, unwrap_or};
ghost use Rattle.ssd_histories.specs.PageMap.{first_live_in, index_in, least_of, live_in, NameApart, names_slot, names_superblock, names_within, NameWithin, NoOtherNames, owner_of, row_at};
ghost use Rattle.ssd_geo.specs.declared.row.Row.TheVariants.{Empty};

use ssd_geo::{Items, Memory, Row, Slot};
use std::alloc::Global;
use std::marker::Model;

/// The rows of a channel. No two of them name one slot, so a slot that is live has one owner.
#[derive(Debug, Drop)]
pub struct Rows {
    rows: Vec<Row>,
    superblocks: u16,
    slots: u32,
}

impl Model for Rows {
    ghost use Rattle.std.specs.Prelude.{◌<◌, ◌^◌, length};
    ghost use Rattle.map_rows.specs.PageMap.{PageMap};
    ghost use Rattle.ssd_histories.specs.PageMap.{NameApart, NameWithin};

    ghost Value = { PageMap };

    ghost view = { λ a. record { rows = a.rows.items; superblocks = a.superblocks; slots = a.slots } };

    ghost invariant = { λ a. (length a.rows.items < 2 ^ 32) × NameWithin a.superblocks a.slots a.rows.items
        × NameApart a.rows.items };
}

impl Rows {
    /// A page map whose rows are all empty, for so many superblocks with so many data slots each.
    pub fn new(alloc: Global, rows: u32, superblocks: u16, slots: u32) -> Result<Rows, Memory>
        ensures { IfOk result (λ map. map
            ≡ record { rows = replicate rows Empty; superblocks = superblocks; slots = slots }) }
    {
        let Ok(rows) = vec![in alloc; Row::Empty; rows as usize] else {
            return Err(Memory);
        };
        Ok(Rows {
            rows,
            superblocks,
            slots,
        })
    }

    /// What the row holds.
    pub fn row(&self, row: u32) -> Row
        requires { row < length self.now.rows }
        ensures value { result ≡ row_at self.now.rows row }
        ensures within { IsTrue (names_within self.now.superblocks self.now.slots result) }
    {
        self.rows[row as usize]
    }

    /// Gives the row a new value and answers its old one. No other row may name the slot of the new value.
    pub fn set(&mut self, row: u32, to: Row) -> Row
        requires row_in_range { row < length self.old.rows }
        requires slot_in_range { IsTrue (names_within self.old.superblocks self.old.slots to) }
        requires unnamed { NoOtherNames self.old.rows row to }
        ensures old { result ≡ row_at self.old.rows row }
        ensures after { self.new ≡ record self.old { rows = slice_set self.old.rows row to } }
    {
        let place = &mut self.rows[row as usize];
        let old = *place;
        *place = to;
        old
    }

    /// How many rows name slots of the superblock: its live pages.
    pub fn live(&self, sb: u16) -> u32
        requires { sb < self.now.superblocks }
        ensures { result ≡ live_in self.now.rows sb }
    {
        self.rows.iter().filter(|row| stands_in(row, sb)).count() as u32
    }

    /// The row that names the slot.
    pub fn owner(&self, slot: Slot) -> Option<u32>
        requires sb_in_range { slot.sb < self.now.superblocks }
        requires index_in_range { slot.index < self.now.slots }
        ensures value { result ≡ owner_of self.now.rows slot }
        ensures only { (row : ℕ) → IsTrue (names_slot slot (row_at self.now.rows row)) → result ≡ Some row }
    {
        match place_of(&self.rows, slot) {
            Some(row) => Some(row as u32),
            None => None,
        }
    }

    /// The live slot of least index in the superblock.
    pub fn first_live(&self, sb: u16) -> Option<Slot>
        requires { sb < self.now.superblocks }
        ensures value { result ≡ first_live_in self.now.rows sb }
        ensures none { IsNone result ↔ live_in self.now.rows sb ≡ 0 }
        ensures within { IfSome result (λ slot. (slot.sb ≡ sb) × (slot.index < self.now.slots)) }
        ensures owned { IfSome result (λ slot. IsSome (owner_of self.now.rows slot)) }
    {
        match least_index(&self.rows, sb) {
            Some(index) => Some(Slot { sb, index }),
            None => None,
        }
    }

    /// Gives the rows back.
    pub fn into_items(self) -> Items<Row>
        ensures value { result ≡ self.rows }
        ensures within { NameWithin self.superblocks self.slots self.rows }
        ensures apart { NameApart self.rows }
    {
        let Rows { rows, .. } = self;
        Items::new(rows)
    }
}

// Whether the row names a slot of the superblock.
fn stands_in(row: &Row, sb: u16) -> bool
    ensures { result ≡ names_superblock sb row.now }
{
    match row {
        Row::Page { slot, .. } => slot.sb == sb,
        _ => false,
    }
}

// Whether the row names the slot.
fn stands_at(row: &Row, slot: Slot) -> bool
    ensures { result ≡ names_slot slot row.now }
{
    match row {
        Row::Page { slot: named, .. } => slot.sb == named.sb && slot.index == named.index,
        _ => false,
    }
}

// The index of the slot that the row names, where it stands in the superblock.
fn index_of(row: &Row, sb: u16) -> Option<u32>
    ensures { result ≡ index_in sb row.now }
{
    match row {
        Row::Page { slot, .. } if slot.sb == sb => Some(slot.index),
        _ => None,
    }
}

// The least number so far, and one more.
fn lesser(least: Option<u32>, index: u32) -> u32
    ensures { result ≡ min (unwrap_or least index) index }
{
    match least {
        Some(least) => least.min(index),
        None => index,
    }
}

// The first row that names the slot.
fn place_of(rows: &[Row], slot: Slot) -> Option<usize>
    ensures { result ≡ owner_of rows.now slot }
{
    rows.iter().position(|row| stands_at(row, slot))
}

// The least index of the superblock's slots that rows name.
fn least_index(rows: &[Row], sb: u16) -> Option<u32>
    ensures { result ≡ least_of (filter_map (index_in sb) rows.now) }
{
    let mut least = None;
    for row in rows {
        if let Some(index) = index_of(row, sb) {
            least = Some(lesser(least, index));
        }
    }
    least
}

// The tables of a channel, and what may be asked of them.
ghost use Rattle.std.specs.Prelude.{◌≡◌, ◌+◌, ◌^◌, ◌<◌, ◌≤◌, ℕ, [], All, IfOk, OnOk, length, replicate};
ghost use Rattle.ssd_histories.specs.Blocks.{AreSound};
ghost use Rattle.ssd_histories.specs.History.{history_of, open_looks};
ghost use Rattle.ssd_histories.specs.PageMap.{row_at};
ghost use Rattle.ssd_geo.specs.Superblock.{slots_of};
ghost use Rattle.ssd_geo.specs.declared.row.Row.TheVariants.{Empty};
ghost use Rattle.chan_tables.specs.TablesState.{IsStopped, room_of_look, room_of_step, HasSpare, NamesUsedIn, AreRowsOf, AreWhole, HasFewErases};

use crate::history::History;
use allocator::Blocks;
use block_pins::Pins;
use map_rows::Rows;
use ssd_geo::{BlockBase, Entry, Items, Memory, Row, Shape, StepStop};
use std::alloc::Global;
use std::marker::Model;

mod ageing;
mod collecting;
mod condemning;
mod entries;
mod erasing;
mod filling;
mod looking;
mod moving;
mod noting;
mod picking;
mod writing;

/// Entries that a look sets aside: its own, at most 168 senses and a failed one, a move or a condemnation, and a leave, with
/// some to spare.
const LOOK_ROOM: u64 = 256;

/// The page map, the superblocks, the open looks and the history of a channel. Contracts see them as lists.
#[derive(Drop)]
pub struct Tables {
    shape: Shape,
    session: u32,
    rows: Rows,
    blocks: Blocks,
    looks: Pins,
    history: History,
}

impl Model for Tables {
    ghost use Rattle.chan_tables.specs.TablesState.{FitTogether, TablesState};

    ghost Value = { TablesState };

    ghost view = { λ a. record {
      shape = a.shape;
      session = a.session;
      limit = a.history.limit;
      rows = a.rows.rows;
      blocks = a.blocks.blocks;
      looks = a.looks;
      past = a.history.past;
      room = a.history.room;
    } };

    ghost invariant = { λ a. FitTogether a.shape a.session a.rows a.blocks a.looks a.history };
}

impl Tables {
    /// Tables without an open look and without an entry.
    pub fn new(
        alloc: Global,
        shape: Shape,
        session: u32,
        blocks: Items<BlockBase>,
        rows: &[Row],
        limit: u32,
    ) -> Result<Tables, Memory>
        requires few_sessions { session < 2 ^ 24 }
        requires blocks { AreSound (slots_of shape.pages shape.dies) blocks }
        requires blocks_count { length blocks ≡ shape.superblocks }
        requires rows { AreRowsOf shape.superblocks (slots_of shape.pages shape.dies) rows.now }
        requires rows_count { length rows.now ≡ shape.rows }
        requires used { (row : ℕ) → NamesUsedIn blocks (row_at rows.now row) }
        requires few_erases { All (HasFewErases 0) blocks }
        requires limit { limit ≤ 2 ^ 22 }
        ensures { IfOk result (λ tables. tables ≡ record {
          shape = shape;
          session = session;
          limit = limit;
          rows = rows.now;
          blocks = blocks;
          looks = [];
          past = [];
          room = tables.room;
        }) }
    {
        let slots = shape.slots();
        let mut map = Rows::new(alloc, shape.rows, shape.superblocks, slots)?;
        fill(&mut map, rows);
        let looks = Pins::new(alloc, shape.superblocks)?;
        Ok(Tables {
            shape,
            session,
            rows: map,
            blocks: Blocks::new(blocks.into_vec(), slots),
            looks,
            history: History::new(alloc, limit),
        })
    }

    /// Takes room for one entry beside what open looks have set aside.
    pub fn make_room(&mut self) -> Result<(), StepStop>
        ensures room { IsStopped (length self.old.past + room_of_step self.old.looks ≤ self.old.limit)
            (length self.old.past) result }
        ensures spare { OnOk result (HasSpare self.new) }
        ensures same { self.new ≡ record self.old { room = self.new.room } }
    {
        self.history.make_room(step_room(&self.looks))
    }

    /// The sizes of the drive.
    pub fn shape(&self) -> &Shape
        ensures { result.now ≡ self.now.shape }
    {
        &self.shape
    }

    /// The open looks are those that the past leaves open.
    pub fn keeps_looks(&self)
        ensures { self.now.looks ≡ open_looks self.now.past }
    {
        let _ = &self.looks;
    }

    /// The history, oldest entry first.
    pub fn history(&self) -> &[Entry]
        ensures { result.now ≡ history_of self.now.past }
    {
        self.history.entries()
    }

    /// Gives the superblocks, the page map and the history back, the history oldest entry first.
    pub fn into_parts(self) -> (Items<BlockBase>, Items<Row>, Items<Entry>)
        ensures blocks { result.0 ≡ self.blocks }
        ensures rows { result.1 ≡ self.rows }
        ensures history { result.2 ≡ history_of self.past }
        ensures whole { AreWhole self.shape self.blocks self.rows }
    {
        let Tables {
            blocks,
            rows,
            history,
            ..
        } = self;
        (blocks.into_items(), rows.into_items(), history.into_items())
    }
}

// How many entries the history is to have room for, so that a look may be made.
fn look_room(looks: &Pins) -> u64
    ensures { result ≡ room_of_look looks.now }
{
    LOOK_ROOM * (looks.total() as u64 + 1)
}

// How many entries the history is to have room for, so that a step outside a look may be made.
fn step_room(looks: &Pins) -> u64
    ensures { result ≡ room_of_step looks.now }
{
    LOOK_ROOM * looks.total() as u64 + 1
}

// Puts these rows into an empty page map.
fn fill(map: &mut Rows, rows: &[Row])
    requires rows { AreRowsOf map.old.superblocks map.old.slots rows.now }
    requires count { length rows.now ≡ length map.old.rows }
    requires few { length rows.now < 2 ^ 32 }
    requires empty { map.old.rows ≡ replicate (length rows.now) Empty }
    ensures { map.new ≡ record map.old { rows = rows.now } }
{
    for (row, to) in rows.iter().enumerate() {
        let _ = map.set(row as u32, *to);
    }
}

// The table of the superblocks, as a policy is told of them.
ghost use Rattle.std.specs.Prelude.{◌≡◌, ◌+◌, ◌^◌, ◌<◌, ◌≤◌, ℕ, [], length, slice_set};
ghost use Rattle.ssd_histories.specs.OpenLooks.{stands_in};
ghost use Rattle.ssd_histories.specs.PageMap.{names_superblock};
ghost use Rattle.ssd_histories.specs.Policies.{count_of_candidates, table_in};
ghost use Rattle.chan_tables.specs.Filling.{info_at, info_of_block, HasLive, HasPins, HasOneLive, HasOnePin, with_live, with_pin};
ghost use Rattle.chan_tables.specs.TablesState.{table_of};
ghost use Rattle.ssd_histories.specs.Policies as Policies;

use super::Tables;
use allocator::Blocks;
use block_pins::Pins;
use map_rows::Rows;
use ssd_geo::{BlockBase, Look, Row, SbInfo, SbState, Tag};

impl Tables {
    /// Fills the table of the superblocks.
    pub fn fill_table(&self, infos: &mut [SbInfo])
        requires { length infos.old ≡ self.now.shape.superblocks }
        ensures { infos.new ≡ table_of self.now }
    {
        let shape = &self.shape;
        fill_states(infos, &self.blocks, shape.superblocks, shape.slots());
        add_live(infos, &self.rows, shape.rows);
        add_pins(infos, &self.looks);
    }
}

// How many superblocks of a table are sealed and have garbage.
pub(super) fn candidate_count(infos: &[SbInfo]) -> u16
    requires { length infos.now ≤ 256 }
    ensures { result ≡ count_of_candidates infos.now }
{
    infos.iter().filter(|info| is_candidate(info)).count() as u16
}

// Whether a superblock is sealed and has garbage.
fn is_candidate(info: &SbInfo) -> bool
    ensures { result ≡ Policies.is_candidate info.now }
{
    matches!(info.state, SbState::Sealed) && info.live < info.slots
}

// Fills a table with the states of the superblocks, so many with so many slots each.
fn fill_states(infos: &mut [SbInfo], blocks: &Blocks, superblocks: u16, slots: u32)
    requires superblocks { superblocks ≡ length blocks.now.blocks }
    requires count { length infos.old ≡ length blocks.now.blocks }
    ensures { infos.new ≡ table_in slots blocks.now.blocks [] [] }
{
    for sb in 0..superblocks {
        infos[sb as usize] = info_of_block(&blocks.block(sb), slots);
    }
}

// What is told of a superblock before any live page and any pin is counted.
fn info_of_block(block: &BlockBase, slots: u32) -> SbInfo
    ensures { result ≡ info_of_block slots block.now }
{
    SbInfo {
        state: block.state,
        live: 0,
        slots,
        erases: block.erases,
        pins: 0,
    }
}

// Adds the live pages of the rows to a table that has counted none.
fn add_live(infos: &mut [SbInfo], rows: &Rows, count: u32)
    requires count { count ≡ length rows.now.rows }
    requires superblocks { length infos.old ≡ rows.now.superblocks }
    requires none { (sb : ℕ) → sb < length infos.old → (info_at infos.old sb).live ≡ 0 }
    ensures { HasLive rows.now.rows infos.old infos.new }
{
    for row in 0..count {
        count_page(infos, &rows.row(row));
    }
}

// Counts the page that a row names, if it names one.
fn count_page(infos: &mut [SbInfo], row: &Row)
    requires { (sb : ℕ) → sb < length infos.old → (info_at infos.old sb).live + 1 < 2 ^ 32 }
    ensures { HasOneLive (λ sb. names_superblock sb row.now) infos.old infos.new }
{
    if let Row::Page { slot, .. } = row {
        let sb = slot.sb as usize;
        if sb < infos.len() {
            count_live(infos, sb);
        }
    }
}

// Counts one more live page of a superblock.
fn count_live(infos: &mut [SbInfo], sb: usize)
    requires in_range { sb < length infos.old }
    requires few { (info_at infos.old sb).live + 1 < 2 ^ 32 }
    ensures { infos.new ≡ slice_set infos.old sb (with_live (info_at infos.old sb)) }
{
    infos[sb].live += 1;
}

// Adds the pins of the open looks to a table that has counted none.
fn add_pins(infos: &mut [SbInfo], looks: &Pins)
    requires none { (sb : ℕ) → sb < length infos.old → (info_at infos.old sb).pins ≡ 0 }
    ensures { HasPins looks.now infos.old infos.new }
{
    for pin in looks.looks() {
        count_look(infos, pin);
    }
}

// Counts an open look.
fn count_look(infos: &mut [SbInfo], pin: &(Tag, Look))
    requires { (sb : ℕ) → sb < length infos.old → (info_at infos.old sb).pins + 1 < 2 ^ 32 }
    ensures { HasOnePin (λ sb. stands_in sb pin.now) infos.old infos.new }
{
    let sb = pin.1.slot.sb as usize;
    if sb < infos.len() {
        count_pin(infos, sb);
    }
}

// Counts one more pin of a superblock.
fn count_pin(infos: &mut [SbInfo], sb: usize)
    requires in_range { sb < length infos.old }
    requires few { (info_at infos.old sb).pins + 1 < 2 ^ 32 }
    ensures { infos.new ≡ slice_set infos.old sb (with_pin (info_at infos.old sb)) }
{
    infos[sb].pins += 1;
}

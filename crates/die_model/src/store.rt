ghost use Rattle.std.specs.Prelude.{◌≡◌, ℕ, ◌+◌, ◌-◌, ◌*◌, ◌^◌, ◌<◌, ◌≤◌, ◌++◌, List, ℤ, IfOk, length, replicate, map, take, drop, slice_index_or};
ghost use Rattle.ssd_geo.specs.BlockCells.{blank_cells, cells_at};
ghost use Rattle.ssd_geo.specs.Cells.{IsCellLaw, aged_level, fresh_levels};
ghost use Rattle.onfi_cmd.specs.DieState.{programmed_in, with_aged, with_erased, with_erases, with_page};
ghost use Rattle.die_model.specs.Stored.{IsKept, Stored, kept_blocks};

use cell_law::{age_cell, fresh_into};
use ssd_geo::{CellLaw, Memory};
use std::alloc::Global;
use std::marker::Model;

/// The cells of a die. A page's cells keep what they had when it was last programmed, also after an erase: which pages
/// are programmed is counted beside them.
#[derive(Drop)]
pub(crate) struct Store {
    pages: u16,
    cells: usize,
    programmed: Vec<u16>,
    erases: Vec<u32>,
    levels: Vec<i16>,
}

impl Model for Store {
    ghost Value = { Stored };

    ghost view = { λ s. record {
      pages = s.pages;
      cells = s.cells;
      blocks = kept_blocks s.pages s.cells s.programmed.items s.erases.items s.levels.items;
    } };

    ghost invariant = { λ s. IsKept s.pages s.cells s.programmed.items s.erases.items s.levels.items };
}

impl Store {
    /// A blank die's cells.
    pub(crate) fn new(alloc: Global, blocks: u16, pages: u16, cells: usize) -> Result<Store, Memory>
        requires { blocks * pages * cells < 2 ^ 62 }
        ensures { IfOk result (λ s. s ≡ record { pages = pages; cells = cells; blocks = replicate blocks blank_cells }) }
    {
        let programmed = no_pages(alloc, blocks as usize)?;
        let erases = no_erases(alloc, blocks as usize)?;
        let levels = any_levels(alloc, start_of(blocks, pages, 0, cells))?;
        Ok(Store {
            pages,
            cells,
            programmed,
            erases,
            levels,
        })
    }

    /// How many pages of a block are programmed.
    pub(crate) fn programmed(&self, sb: u16) -> u16
        requires { sb < length self.now.blocks }
        ensures value { result ≡ programmed_in self.now.blocks sb }
        ensures most { result ≤ self.now.pages }
    {
        self.programmed[sb as usize]
    }

    /// How often a block was erased.
    pub(crate) fn erases(&self, sb: u16) -> u32
        requires { sb < length self.now.blocks }
        ensures { result ≡ (cells_at self.now.blocks sb).erases }
    {
        self.erases[sb as usize]
    }

    /// The levels of a programmed page.
    pub(crate) fn page(&self, sb: u16, page: u16) -> &[i16]
        requires block { sb < length self.now.blocks }
        requires page { page < programmed_in self.now.blocks sb }
        ensures levels { (d : List ℤ) → result.now ≡ slice_index_or (cells_at self.now.blocks sb).pages page d }
        ensures cells { length result.now ≡ self.now.cells }
    {
        page_at(
            &self.levels,
            start_of(sb, self.pages, page, self.cells),
            self.cells,
        )
    }

    /// Sets how often a block was erased.
    pub(crate) fn set_erases(&mut self, sb: u16, erases: u32)
        requires { sb < length self.old.blocks }
        ensures { self.new ≡ record self.old { blocks = with_erases self.old.blocks sb erases } }
    {
        self.erases[sb as usize] = erases;
    }

    /// Erases a block.
    pub(crate) fn erase(&mut self, sb: u16)
        requires block { sb < length self.old.blocks }
        requires count { (cells_at self.old.blocks sb).erases + 1 < 2 ^ 32 }
        ensures { self.new ≡ record self.old { blocks = with_erased self.old.blocks sb } }
    {
        self.programmed[sb as usize] = 0;
        self.erases[sb as usize] += 1;
    }

    /// Makes the next page of a block a programmed one with these levels.
    pub(crate) fn load(&mut self, sb: u16, levels: &[i16])
        requires block { sb < length self.old.blocks }
        requires room { programmed_in self.old.blocks sb < self.old.pages }
        requires cells { length levels.now ≡ self.old.cells }
        ensures { self.new ≡ record self.old { blocks = with_page self.old.blocks sb levels.now } }
    {
        let count = self.programmed[sb as usize];
        let at = start_of(sb, self.pages, count, self.cells);
        load_at(&mut self.levels, at, levels);
        self.programmed[sb as usize] = count + 1;
    }

    /// Programs a word into the next page of a block, which has this number in the drive.
    pub(crate) fn program(&mut self, law: &CellLaw, place: u32, sb: u16, word: &[u8])
        requires law { IsCellLaw law.now }
        requires block { sb < length self.old.blocks }
        requires room { programmed_in self.old.blocks sb < self.old.pages }
        requires cells { 8 * length word.now ≡ self.old.cells }
        ensures { self.new ≡ record self.old {
          blocks = with_page self.old.blocks sb
              (fresh_levels law.now place (cells_at self.old.blocks sb).erases word.now);
        } }
    {
        let count = self.programmed[sb as usize];
        let at = start_of(sb, self.pages, count, self.cells);
        program_at(
            &mut self.levels,
            at,
            law,
            place,
            self.erases[sb as usize],
            word,
        );
        self.programmed[sb as usize] = count + 1;
    }

    /// Ages the programmed pages of a block.
    pub(crate) fn age(&mut self, sb: u16, erased: i16, amount: u16)
        requires { sb < length self.old.blocks }
        ensures { self.new ≡ record self.old { blocks = with_aged erased self.old.blocks sb amount } }
    {
        let at = start_of(sb, self.pages, 0, self.cells);
        let end = start_of(sb, self.pages, self.programmed[sb as usize], self.cells);
        age_from(&mut self.levels, at, end, erased, amount);
    }
}

fn no_pages(alloc: Global, blocks: usize) -> Result<Vec<u16>, Memory>
    ensures { IfOk result (λ v. v.items ≡ replicate blocks 0) }
{
    match vec![in alloc; 0; blocks] {
        Ok(counts) => Ok(counts),
        Err(_) => Err(Memory),
    }
}

fn no_erases(alloc: Global, blocks: usize) -> Result<Vec<u32>, Memory>
    ensures { IfOk result (λ v. v.items ≡ replicate blocks 0) }
{
    match vec![in alloc; 0; blocks] {
        Ok(counts) => Ok(counts),
        Err(_) => Err(Memory),
    }
}

fn any_levels(alloc: Global, cells: usize) -> Result<Vec<i16>, Memory>
    ensures { IfOk result (λ v. length v.items ≡ cells) }
{
    match vec![in alloc; 0; cells] {
        Ok(levels) => Ok(levels),
        Err(_) => Err(Memory),
    }
}

// Where the cells of a page begin.
fn start_of(sb: u16, pages: u16, page: u16, cells: usize) -> usize
    requires { (sb * pages + page) * cells < 2 ^ 64 }
    ensures { result ≡ (sb * pages + page) * cells }
{
    (sb as usize * pages as usize + page as usize) * cells
}

fn page_at(levels: &[i16], at: usize, cells: usize) -> &[i16]
    requires { at + cells ≤ length levels.now }
    ensures { result.now ≡ take cells (drop at levels.now) }
{
    &levels[at..at + cells]
}

fn load_at(levels: &mut [i16], at: usize, page: &[i16])
    requires { at + length page.now ≤ length levels.old }
    ensures { levels.new ≡ take at levels.old ++ (page.now ++ drop (length page.now) (drop at levels.old)) }
{
    levels[at..at + page.len()].copy_from_slice(page);
}

fn program_at(levels: &mut [i16], at: usize, law: &CellLaw, place: u32, erases: u32, word: &[u8])
    requires law { IsCellLaw law.now }
    requires cells { at + 8 * length word.now ≤ length levels.old }
    ensures { let page = fresh_levels law.now place erases word.now in
        levels.new ≡ take at levels.old ++ (page ++ drop (length page) (drop at levels.old)) }
{
    fresh_into(
        law,
        place,
        erases,
        word,
        &mut levels[at..at + 8 * word.len()],
    );
}

fn age_from(levels: &mut [i16], at: usize, end: usize, erased: i16, amount: u16)
    requires order { at ≤ end }
    requires cells { end ≤ length levels.old }
    ensures { levels.new ≡ take at levels.old ++ (map (aged_level erased amount) (take (end - at) (drop at levels.old))
        ++ drop (end - at) (drop at levels.old)) }
{
    age_all(&mut levels[at..end], erased, amount);
}

fn age_all(levels: &mut [i16], erased: i16, amount: u16)
    ensures { levels.new ≡ map (aged_level erased amount) levels.old }
{
    for level in levels.iter_mut() {
        *level = age_cell(*level, erased, amount);
    }
}

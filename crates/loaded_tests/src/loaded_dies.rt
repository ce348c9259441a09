// Dies of a small drive whose blocks of superblock 0 were erased seven times, and have two programmed pages each.
ghost use Rattle.std.specs.Prelude.{◌≡◌, ◌<◌, ◌∷◌, [], IfOk, OnOk, length, map, replicate, Some};
ghost use Rattle.ssd_geo.specs.BlockCells.{blank_cells};
ghost use Rattle.ssd_geo.specs.Shape.{HasSizes};
ghost use Rattle.ssd_histories.specs.HistoryExamples.{small_sizes};
ghost use Rattle.onfi_cmd.specs.DieCalls.{IsMountedAnd};
ghost use Rattle.die_model.specs.SimState.{state_of};
ghost use Rattle.loaded_tests.specs.LoadedDies.{AreLoadedDies, HasBlocks, loaded_cells};

use die_model::SimDie;
use onfi_cmd::{Die, DieFailed, DiePlan};
use ssd_geo::{CellLaw, Items, Shape, Weak};
use std::alloc::{AllocError, Global};
use std::test::Fail;

/// Cells without noise.
pub(crate) const LAW: CellLaw = CellLaw {
    erased: -100,
    programmed: 100,
    spread: 0,
    seed: 1,
};

/// How many cells a page has.
pub(crate) const CELLS: usize = 384;

// A die that is mounted as the one of this number, and blank.
fn mounted(alloc: Global, number: u8, shape: Shape, weak: &[Weak]) -> Result<SimDie, Fail>
    requires number { number < 3 }
    requires sizes { HasSizes shape small_sizes }
    ensures { IfOk result (λ die. HasBlocks shape weak.now number (replicate shape.superblocks blank_cells) (state_of die)) }
{
    let mut die = SimDie::new();
    let plan = DiePlan {
        channel: 0,
        die: number,
        shape,
        law: LAW,
        weak: Items::new(Vec::from_slice(alloc, weak)?),
    };
    if die.mount(alloc, &plan).is_err() {
        return Err("not mounted".into());
    }
    Ok(die)
}

// Loads the block of superblock 0: its erases, and its two pages.
fn load(die: &mut SimDie, levels: &[i16]) -> Result<(), DieFailed>
    requires sizes { IsMountedAnd (state_of die.old) (λ plan. HasSizes plan.shape small_sizes) }
    requires blank { (state_of die.old).told ≡ Some (replicate 4 blank_cells) }
    requires whole { length levels.now ≡ CELLS }
    ensures plan { OnOk result ((state_of die.new).plan ≡ (state_of die.old).plan) }
    ensures told { OnOk result ((state_of die.new).told ≡ Some (loaded_cells levels.now)) }
{
    die.load_block(0, 7)?;
    die.load_page(0, 0, levels)?;
    die.load_page(0, 1, levels)
}

// A die that is mounted and loaded.
fn loaded(
    alloc: Global,
    number: u8,
    shape: Shape,
    weak: &[Weak],
    levels: &[i16],
) -> Result<SimDie, Fail>
    requires number { number < 3 }
    requires sizes { HasSizes shape small_sizes }
    requires whole { length levels.now ≡ CELLS }
    ensures { IfOk result (λ die. HasBlocks shape weak.now number (loaded_cells levels.now) (state_of die)) }
{
    let mut die = mounted(alloc, number, shape, weak)?;
    if load(&mut die, levels).is_err() {
        return Err("not loaded".into());
    }
    Ok(die)
}

// A list of three dies.
fn three_of(
    alloc: Global,
    zero: SimDie,
    one: SimDie,
    two: SimDie,
) -> Result<Vec<SimDie>, AllocError>
    ensures { IfOk result (λ dies. dies.items ≡ zero ∷ one ∷ two ∷ []) }
{
    let mut dies = Vec::new(alloc);
    dies.push(zero)?;
    dies.push(one)?;
    dies.push(two)?;
    Ok(dies)
}

/// The dies of the channel, with these levels in each page.
pub(crate) fn loaded_dies(
    alloc: Global,
    shape: Shape,
    weak: &[Weak],
    levels: &[i16],
) -> Result<Vec<SimDie>, Fail>
    requires sizes { HasSizes shape small_sizes }
    requires whole { length levels.now ≡ CELLS }
    ensures { IfOk result (λ dies. AreLoadedDies shape weak.now levels.now (map state_of dies.items)) }
{
    let zero = loaded(alloc, 0, shape, weak, levels)?;
    let one = loaded(alloc, 1, shape, weak, levels)?;
    let two = loaded(alloc, 2, shape, weak, levels)?;
    let dies = three_of(alloc, zero, one, two)?;
    Ok(dies)
}

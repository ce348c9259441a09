ghost use Rattle.std.specs.Prelude.{◌≡◌, ◌==◌, ◌+◌, ◌-◌, ◌<◌, ◌≤◌, ◌^◌, ◌⊎◌, IfOk, OnErr, OnOk};
ghost use Rattle.std.specs.Prelude.{is_some, length, true, vec_capacity};
ghost use Rattle.ssd_geo.specs.BlockCells.{cells_at};
ghost use Rattle.ssd_geo.specs.Cells.{sensed};
ghost use Rattle.ssd_geo.specs.Coding.{word_bytes_in};
ghost use Rattle.ssd_geo.specs.StripeLaws.{IsPlace};
ghost use Rattle.onfi_cmd.specs.Cycles.{HasItsBytes, HasItsFeature, HasRowInRange};
ghost use Rattle.onfi_cmd.specs.DieCalls.{CanDo, IsBlock, IsMountedAnd, IsWorkCall};
ghost use Rattle.onfi_cmd.specs.DieState.{programmed_in, status_failed, status_passed};
ghost use Rattle.chan_dies.specs.DiesState.{IsMountedDie, blocks_in, levels_in};
ghost use Rattle.chan_dies.specs.OneDie.{AgesBlock, ErasesBlock, FaultsDie, KeepsDie, PutsPage};
ghost use Rattle.chan_dies.specs.Operations.{DoesOperation, EndsAs, SetsReadLevel, end_told};

use onfi_cmd::{Cycle, Die, DieFailed, Op, cycles_into, level_params, row_address};
use ssd_geo::{Place, Shape};

// The feature address of the read level.
const READ_LEVEL: u8 = 0x89;

/// How a program or an erase of one block ended.
#[derive(Clone, Copy)]
pub(crate) enum DieEnd {
    /// The block passed.
    Passed,
    /// The block is weak and answered FAIL.
    Failed,
    /// The die's call failed.
    Fault,
}

/// Senses a page at a level.
pub(crate) fn sense_page<D: Die>(
    die: &mut D,
    cycles: &mut Vec<Cycle>,
    shape: &Shape,
    place: Place,
    level: i16,
    out: &mut [u8],
) -> Result<(), DieFailed>
    requires mounted { IsMountedDie shape.now place.die (D.state die.old) }
    requires place { IsPlace shape.now.dies shape.now.superblocks shape.now.pages place }
    requires word { length out.old ≡ word_bytes_in shape.now }
    requires room { word_bytes_in shape.now + 7 ≤ vec_capacity cycles.old }
    ensures ok { OnOk result (KeepsDie (D.state die.old) (D.state die.new)) }
    ensures bits { OnOk result (out.new ≡ sensed level (levels_in (D.state die.old) place.sb place.page)) }
    ensures err { OnErr result (FaultsDie (D.state die.old) (D.state die.new)) }
    ensures out { OnErr result (out.new ≡ out.old) }
    ensures room { vec_capacity cycles.old ≤ vec_capacity cycles.new }
{
    set_level(die, cycles, level)?;
    read_page(die, cycles, shape, place, out)
}

/// Programs a page.
pub(crate) fn program_page<D: Die>(
    die: &mut D,
    cycles: &mut Vec<Cycle>,
    shape: &Shape,
    place: Place,
    word: &[u8],
) -> DieEnd
    requires mounted { IsMountedDie shape.now place.die (D.state die.old) }
    requires place { IsPlace shape.now.dies shape.now.superblocks shape.now.pages place }
    requires next { place.page ≡ programmed_in (blocks_in (D.state die.old)) place.sb }
    requires word { length word.now ≡ word_bytes_in shape.now }
    requires room { word_bytes_in shape.now + 7 ≤ vec_capacity cycles.old }
    ensures end { EndsAs (PutsPage place.sb place.page word.now) place.sb result (D.state die.old) (D.state die.new) }
    ensures room { vec_capacity cycles.old ≤ vec_capacity cycles.new }
{
    let row = row_address(shape, place.sb, place.page);
    let op = Op::Program { column: 0, row };
    match run_op(die, cycles, op, word, &mut []) {
        Ok(status) => end_of(status),
        Err(_) => DieEnd::Fault,
    }
}

/// Erases the block of a place.
pub(crate) fn erase_block<D: Die>(
    die: &mut D,
    cycles: &mut Vec<Cycle>,
    shape: &Shape,
    place: Place,
) -> DieEnd
    requires mounted { IsMountedDie shape.now place.die (D.state die.old) }
    requires place { IsPlace shape.now.dies shape.now.superblocks shape.now.pages place }
    requires erases { (cells_at (blocks_in (D.state die.old)) place.sb).erases < 2 ^ 32 - 1 }
    requires room { word_bytes_in shape.now + 7 ≤ vec_capacity cycles.old }
    ensures end { EndsAs (ErasesBlock place.sb) place.sb result (D.state die.old) (D.state die.new) }
    ensures room { vec_capacity cycles.old ≤ vec_capacity cycles.new }
{
    let row = row_address(shape, place.sb, place.page);
    match run_op(die, cycles, Op::Erase { row }, &[], &mut []) {
        Ok(status) => end_of(status),
        Err(_) => DieEnd::Fault,
    }
}

/// Ages a block.
pub(crate) fn age_block<D: Die>(die: &mut D, sb: u16, amount: u16) -> Result<(), DieFailed>
    requires block { IsBlock (D.state die.old) sb }
    requires tells { is_some (D.state die.old).told ≡ true }
    ensures ok { OnOk result (AgesBlock sb amount (D.state die.old) (D.state die.new)) }
    ensures err { OnErr result (FaultsDie (D.state die.old) (D.state die.new)) }
{
    die.age(sb, amount)
}

// Sets the level at which the next pages are sensed.
fn set_level<D: Die>(die: &mut D, cycles: &mut Vec<Cycle>, level: i16) -> Result<(), DieFailed>
    requires mounted { is_some (D.state die.old).plan ≡ true }
    requires tells { is_some (D.state die.old).told ≡ true }
    requires room { 7 ≤ vec_capacity cycles.old }
    ensures ok { OnOk result (SetsReadLevel level (D.state die.old) (D.state die.new)) }
    ensures err { OnErr result (FaultsDie (D.state die.old) (D.state die.new)) }
    ensures room { vec_capacity cycles.old ≤ vec_capacity cycles.new }
{
    let op = Op::SetFeatures {
        address: READ_LEVEL,
        params: level_params(level),
    };
    run_op(die, cycles, op, &[], &mut [])?;
    Ok(())
}

// Senses a page at the level that is set.
fn read_page<D: Die>(
    die: &mut D,
    cycles: &mut Vec<Cycle>,
    shape: &Shape,
    place: Place,
    out: &mut [u8],
) -> Result<(), DieFailed>
    requires mounted { IsMountedDie shape.now place.die (D.state die.old) }
    requires place { IsPlace shape.now.dies shape.now.superblocks shape.now.pages place }
    requires word { length out.old ≡ word_bytes_in shape.now }
    requires room { word_bytes_in shape.now + 7 ≤ vec_capacity cycles.old }
    ensures ok { OnOk result (KeepsDie (D.state die.old) (D.state die.new)) }
    ensures bits { OnOk result (out.new ≡
        sensed (D.state die.old).read_level (levels_in (D.state die.old) place.sb place.page)) }
    ensures err { OnErr result (FaultsDie (D.state die.old) (D.state die.new)) }
    ensures out { OnErr result (out.new ≡ out.old) }
    ensures room { vec_capacity cycles.old ≤ vec_capacity cycles.new }
{
    let row = row_address(shape, place.sb, place.page);
    run_op(die, cycles, Op::Read { column: 0, row }, &[], out)?;
    Ok(())
}

// How a block ended, as the die's status tells.
fn end_of(status: u8) -> DieEnd
    requires { (status ≡ status_passed) ⊎ (status ≡ status_failed) }
    ensures { result ≡ end_told (status == status_failed) }
{
    if status & 1 == 0 {
        DieEnd::Passed
    } else {
        DieEnd::Failed
    }
}

// Runs one operation of a die. The cycles take the room of those before them.
fn run_op<D: Die>(
    die: &mut D,
    cycles: &mut Vec<Cycle>,
    op: Op,
    bytes: &[u8],
    out: &mut [u8],
) -> Result<u8, DieFailed>
    requires row { HasRowInRange op }
    requires feature { HasItsFeature op }
    requires data_bytes { HasItsBytes op bytes.now }
    requires few { length bytes.now + 7 < 2 ^ 32 }
    requires room { length bytes.now + 7 ≤ vec_capacity cycles.old }
    requires can { IsMountedAnd (D.state die.old) (λ plan. CanDo plan (D.state die.old).told op bytes.now (length out.old)) }
    ensures call { IsWorkCall (D.state die.old) (D.state die.new) result }
    ensures out { OnErr result (out.new ≡ out.old) }
    ensures status { IfOk result (λ status. (status ≡ status_passed) ⊎ (status ≡ status_failed)) }
    ensures ok { IfOk result (λ status. DoesOperation (D.state die.old) (D.state die.new) op bytes.now status out.new) }
    ensures room { vec_capacity cycles.old ≤ vec_capacity cycles.new }
{
    match cycles_into(op, bytes, cycles) {
        Ok(()) => die.run(cycles, out),
        Err(_) => unreachable!(),
    }
}

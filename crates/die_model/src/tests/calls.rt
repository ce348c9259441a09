// Calls of a die that name blocks and pages of its plan, as its conditions ask.
ghost use Rattle.std.specs.Prelude.{◌≡◌, IfOk, OnOk, Some, length};
ghost use Rattle.onfi_cmd.specs.Cycles.{HasItsBytes, HasItsFeature, HasRowInRange};
ghost use Rattle.onfi_cmd.specs.DieCalls.{CanDo, IsMountedAnd, IsPlan};

use onfi_cmd::{
    Cycle, Die, DiePlan, Op, cycles_into, level_params, operations_match_cycles, row_address,
};
use ssd_geo::{CellLaw, Items, Shape, Weak};
use std::alloc::Global;
use std::test::Fail;

pub(crate) const WORD: [u8; 48] = [
    0x01, 0x83, 0x0b, 0xff, 0x00, 0x55, 0xaa, 0x10, 0x01, 0x83, 0x0b, 0xff, 0x00, 0x55, 0xaa, 0x10,
    0x01, 0x83, 0x0b, 0xff, 0x00, 0x55, 0xaa, 0x10, 0x01, 0x83, 0x0b, 0xff, 0x00, 0x55, 0xaa, 0x10,
    0x01, 0x83, 0x0b, 0xff, 0x00, 0x55, 0xaa, 0x10, 0x01, 0x83, 0x0b, 0xff, 0x00, 0x55, 0xaa, 0x10,
];

// What `status_of` answers of a failed call.
pub(crate) const FAILED_CALL: u8 = 0;

// Die 1 of a channel of three dies with 4 blocks of 2 pages of 48 bytes, whose block 2 is weak from 5 erases on.
pub(crate) fn plan_of(alloc: Global) -> Result<DiePlan, Fail>
    ensures { IfOk result (λ p. IsPlan p) }
{
    let Ok(shape) = Shape::new(1, 1, 3, 4, 2, 64, 3, 6, 8, 8) else {
        return Err("no shape".into());
    };
    let law = CellLaw {
        erased: -100,
        programmed: 100,
        spread: 0,
        seed: 1,
    };
    let weak = vec![in alloc;
        Weak {
            channel: 0,
            die: 1,
            sb: 2,
            from: 5
        },
    ]?;
    Ok(DiePlan {
        channel: 0,
        die: 1,
        shape,
        law,
        weak: Items::new(weak),
    })
}

pub(crate) fn mounted<D: Die>(die: &mut D, alloc: Global, plan: &DiePlan) -> Result<(), Fail>
    requires { IsPlan plan.now }
    ensures { OnOk result ((D.state die.new).plan ≡ Some plan.now) }
{
    if die.mount(alloc, plan).is_err() {
        return Err("not mounted".into());
    }
    Ok(())
}

// Runs one operation.
fn status_of<D: Die>(
    die: &mut D,
    op: Op,
    bytes: &[u8],
    out: &mut [u8],
    cycles: &mut Vec<Cycle>,
) -> Result<u8, Fail>
    requires row { HasRowInRange op }
    requires feature { HasItsFeature op }
    requires data_bytes { HasItsBytes op bytes.now }
    requires can { IsMountedAnd (D.state die.old) (λ plan.
        CanDo plan (D.state die.old).told op bytes.now (length out.old)) }
    ensures plan { (D.state die.new).plan ≡ (D.state die.old).plan }
{
    operations_match_cycles();
    if bytes.len() > 1000 || cycles_into(op, bytes, cycles).is_err() {
        return Err("no cycles".into());
    }
    match die.run(cycles.as_slice(), out) {
        Ok(status) => Ok(status),
        Err(_) => Ok(FAILED_CALL),
    }
}

// Programs the word into the next page of a block.
pub(crate) fn program<D: Die>(
    die: &mut D,
    plan: &DiePlan,
    sb: u16,
    cycles: &mut Vec<Cycle>,
) -> Result<u8, Fail>
    requires { (D.state die.old).plan ≡ Some plan.now }
    ensures { (D.state die.new).plan ≡ Some plan.now }
{
    if sb >= plan.shape.superblocks || plan.shape.word_bytes() != 48 {
        return Err("no block".into());
    }
    let page = die.programmed(sb);
    if page >= plan.shape.pages {
        return Err("no page left".into());
    }
    let row = row_address(&plan.shape, sb, page);
    status_of(die, Op::Program { column: 0, row }, &WORD, &mut [], cycles)
}

// Sets how often a block was erased, and then erases it.
pub(crate) fn erase_after<D: Die>(
    die: &mut D,
    plan: &DiePlan,
    sb: u16,
    erases: u16,
    cycles: &mut Vec<Cycle>,
) -> Result<u8, Fail>
    requires { (D.state die.old).plan ≡ Some plan.now }
    ensures { (D.state die.new).plan ≡ Some plan.now }
{
    if sb >= plan.shape.superblocks || plan.shape.pages == 0 {
        return Err("no block".into());
    }
    if die.load_block(sb, erases as u32).is_err() {
        return Err("not loaded".into());
    }
    let row = row_address(&plan.shape, sb, 0);
    status_of(die, Op::Erase { row }, &[], &mut [], cycles)
}

// Sets the read level, and senses a page of a block at it.
pub(crate) fn sense<D: Die>(
    die: &mut D,
    plan: &DiePlan,
    sb: u16,
    level: i16,
    cycles: &mut Vec<Cycle>,
) -> Result<[u8; 48], Fail>
    requires { (D.state die.old).plan ≡ Some plan.now }
    ensures { (D.state die.new).plan ≡ Some plan.now }
{
    if sb >= plan.shape.superblocks || plan.shape.pages == 0 || plan.shape.word_bytes() != 48 {
        return Err("no page".into());
    }
    let params = level_params(level);
    let op = Op::SetFeatures {
        address: 0x89,
        params,
    };
    let set = status_of(die, op, &[], &mut [], cycles)?;
    let mut out = [0; 48];
    let row = row_address(&plan.shape, sb, 0);
    let read = status_of(die, Op::Read { column: 0, row }, &[], &mut out, cycles)?;
    if set != 0xe0 || read != 0xe0 {
        return Err("not sensed".into());
    }
    Ok(out)
}

pub(crate) fn programmed<D: Die>(die: &D, plan: &DiePlan, sb: u16) -> Result<u16, Fail>
    requires { (D.state die.now).plan ≡ Some plan.now }
{
    if sb >= plan.shape.superblocks {
        return Err("no block".into());
    }
    Ok(die.programmed(sb))
}

// Whether the next page of a block could be loaded with these levels.
pub(crate) fn loads_page<D: Die>(
    die: &mut D,
    plan: &DiePlan,
    sb: u16,
    levels: &[i16; 384],
) -> Result<bool, Fail>
    requires { (D.state die.old).plan ≡ Some plan.now }
    ensures { (D.state die.new).plan ≡ Some plan.now }
{
    if sb >= plan.shape.superblocks || plan.shape.word_bytes() != 48 {
        return Err("no block".into());
    }
    let page = die.programmed(sb);
    if page >= plan.shape.pages {
        return Err("no page left".into());
    }
    Ok(die.load_page(sb, page, levels).is_ok())
}

// Whether the levels of the first page of a block could be copied.
pub(crate) fn copies_levels<D: Die>(
    die: &mut D,
    plan: &DiePlan,
    sb: u16,
    out: &mut [i16; 384],
) -> Result<bool, Fail>
    requires { (D.state die.old).plan ≡ Some plan.now }
    ensures { (D.state die.new).plan ≡ Some plan.now }
{
    if sb >= plan.shape.superblocks || plan.shape.pages == 0 || plan.shape.word_bytes() != 48 {
        return Err("no page".into());
    }
    Ok(die.levels(sb, 0, out).is_ok())
}

pub(crate) fn loads_block<D: Die>(die: &mut D, plan: &DiePlan, sb: u16) -> Result<bool, Fail>
    requires { (D.state die.old).plan ≡ Some plan.now }
    ensures { (D.state die.new).plan ≡ Some plan.now }
{
    if sb >= plan.shape.superblocks {
        return Err("no block".into());
    }
    Ok(die.load_block(sb, 7).is_ok())
}

pub(crate) fn ages<D: Die>(die: &mut D, plan: &DiePlan, sb: u16, amount: u16) -> Result<bool, Fail>
    requires { (D.state die.old).plan ≡ Some plan.now }
    ensures { (D.state die.new).plan ≡ Some plan.now }
{
    if sb >= plan.shape.superblocks {
        return Err("no block".into());
    }
    Ok(die.age(sb, amount).is_ok())
}

// The read level's parameters, as the die tells them.
pub(crate) fn level_told<D: Die>(
    die: &mut D,
    plan: &DiePlan,
    cycles: &mut Vec<Cycle>,
) -> Result<[u8; 4], Fail>
    requires { (D.state die.old).plan ≡ Some plan.now }
    ensures { (D.state die.new).plan ≡ Some plan.now }
{
    let mut params = [9; 4];
    let op = Op::GetFeatures { address: 0x89 };
    if status_of(die, op, &[], &mut params, cycles)? != 0xe0 {
        return Err("not told".into());
    }
    Ok(params)
}

// The answer of Read Status and its byte, which stands in place of a 7 that was there.
pub(crate) fn status_told<D: Die>(
    die: &mut D,
    plan: &DiePlan,
    cycles: &mut Vec<Cycle>,
) -> Result<(u8, u8), Fail>
    requires { (D.state die.old).plan ≡ Some plan.now }
    ensures { (D.state die.new).plan ≡ Some plan.now }
{
    let _ = plan;
    let mut out = [7];
    let status = status_of(die, Op::Status, &[], &mut out, cycles)?;
    Ok((status, out[0]))
}

pub(crate) fn reset<D: Die>(
    die: &mut D,
    plan: &DiePlan,
    cycles: &mut Vec<Cycle>,
) -> Result<u8, Fail>
    requires { (D.state die.old).plan ≡ Some plan.now }
    ensures { (D.state die.new).plan ≡ Some plan.now }
{
    let _ = plan;
    status_of(die, Op::Reset, &[], &mut [], cycles)
}

ghost use Rattle.std.specs.Prelude.{◌≡◌, ◌+◌, ◌^◌, ◌<◌, ◌≤◌, ◌++◌, OnErr, OnOk, IsOk, length, map, vec_capacity, vec_len};
ghost use Rattle.onfi_cmd.specs.Cycles.{HasNoOtherBytes, HasRowInRange, column_cycles, cycles_of, row_cycles};
ghost use Rattle.onfi_cmd.specs.declared.cycle.Cycle.TheVariants.{Byte};

use crate::{Cycle, Op};
use ssd_geo::Memory;

/// Puts the cycles of an operation in place of what `out` holds. A program's data bytes go before its last command.
pub fn cycles_into(op: Op, bytes: &[u8], out: &mut Vec<Cycle>) -> Result<(), Memory>
    requires row { HasRowInRange op }
    requires data_bytes { HasNoOtherBytes op bytes.now }
    ensures ok { OnOk result (out.new.items ≡ cycles_of op bytes.now) }
    ensures err { OnErr result (out.new.items ≡ out.old.items) }
    ensures room { length (cycles_of op bytes.now) ≤ vec_capacity out.old → IsOk result }
    ensures capacity { vec_capacity out.old ≤ vec_capacity out.new }
{
    make_room(out, count(op, bytes))?;
    out.clear();
    match op {
        Op::Read { column, row } => {
            out.push_reserved(Cycle::Command(0x00));
            push_all(out, &column_address(column));
            push_all(out, &row_address(row));
            out.push_reserved(Cycle::Command(0x30));
        }
        Op::Program { column, row } => {
            out.push_reserved(Cycle::Command(0x80));
            push_all(out, &column_address(column));
            push_all(out, &row_address(row));
            push_bytes(out, bytes);
            out.push_reserved(Cycle::Command(0x10));
        }
        Op::Erase { row } => {
            out.push_reserved(Cycle::Command(0x60));
            push_all(out, &row_address(row));
            out.push_reserved(Cycle::Command(0xd0));
        }
        Op::Status => out.push_reserved(Cycle::Command(0x70)),
        Op::Reset => out.push_reserved(Cycle::Command(0xff)),
        Op::SetFeatures { address, params } => {
            out.push_reserved(Cycle::Command(0xef));
            out.push_reserved(Cycle::Address(address));
            push_bytes(out, &params);
        }
        Op::GetFeatures { address } => {
            out.push_reserved(Cycle::Command(0xee));
            out.push_reserved(Cycle::Address(address));
        }
    }
    Ok(())
}

// Room for so many cycles in all.
fn make_room(out: &mut Vec<Cycle>, cycles: usize) -> Result<(), Memory>
    ensures items { out.new.items ≡ out.old.items }
    ensures ok { OnOk result (cycles ≤ vec_capacity out.new) }
    ensures room { cycles ≤ vec_capacity out.old → IsOk result }
    ensures capacity { vec_capacity out.old ≤ vec_capacity out.new }
{
    if cycles <= out.capacity() {
        return Ok(());
    }
    match out.reserve(cycles - out.len()) {
        Ok(()) => Ok(()),
        Err(_) => Err(Memory),
    }
}

// How many cycles an operation has.
fn count(op: Op, bytes: &[u8]) -> usize
    requires { HasNoOtherBytes op bytes.now }
    ensures { result ≡ length (cycles_of op bytes.now) }
{
    match op {
        Op::Read { .. } => 7,
        Op::Program { .. } => 7 + bytes.len(),
        Op::Erase { .. } => 5,
        Op::Status | Op::Reset => 1,
        Op::SetFeatures { .. } => 6,
        Op::GetFeatures { .. } => 2,
    }
}

fn column_address(column: u16) -> [Cycle; 2]
    ensures { result ≡ column_cycles column }
{
    [
        Cycle::Address((column % 256) as u8),
        Cycle::Address((column / 256) as u8),
    ]
}

fn row_address(row: u32) -> [Cycle; 3]
    requires { row < 2 ^ 24 }
    ensures { result ≡ row_cycles row }
{
    [
        Cycle::Address((row % 256) as u8),
        Cycle::Address((row / 256 % 256) as u8),
        Cycle::Address((row / 65_536) as u8),
    ]
}

fn push_all(out: &mut Vec<Cycle>, cycles: &[Cycle])
    requires { vec_len out.old + length cycles.now ≤ vec_capacity out.old }
    ensures items { out.new.items ≡ out.old.items ++ cycles.now }
    ensures len { vec_len out.new ≡ vec_len out.old + length cycles.now }
    ensures capacity { vec_capacity out.new ≡ vec_capacity out.old }
{
    for cycle in cycles {
        out.push_reserved(*cycle);
    }
}

fn push_bytes(out: &mut Vec<Cycle>, bytes: &[u8])
    requires { vec_len out.old + length bytes.now ≤ vec_capacity out.old }
    ensures items { out.new.items ≡ out.old.items ++ map Byte bytes.now }
    ensures len { vec_len out.new ≡ vec_len out.old + length bytes.now }
    ensures capacity { vec_capacity out.new ≡ vec_capacity out.old }
{
    for byte in bytes {
        out.push_reserved(Cycle::Byte(*byte));
    }
}

ghost use Rattle.std.specs.Prelude.{◌≡◌, ℕ, ◌+◌, ◌*◌, ◌^◌, ◌<◌, ◌≤◌, IfErr, List, IfNone, IfSome, Option, Some, None, drop, length};
ghost use Rattle.onfi_cmd.specs.Cycles.{value_at};
ghost use Rattle.onfi_cmd.specs.Reading.{after_erase, after_get_features, after_program, after_read, after_set_features, column_at, data_fault, end_fault, first_fault, is_as_expected, operation_of, params_at, row_at, unless_fault};
ghost use Rattle.onfi_cmd.specs.declared.cycle.Cycle.{Cycle};
ghost use Rattle.onfi_cmd.specs.declared.cycle_fault.CycleFault.{CycleFault};

use crate::{Cycle, CycleFault, Op};

// What the profile wants of a cycle.
#[derive(Clone, Copy)]
enum Expected {
    AnyAddress,
    // An address of this project's own features.
    Feature,
    AnyByte,
    Closing(u8),
}

const AFTER_READ: [Expected; 6] = [
    Expected::AnyAddress,
    Expected::AnyAddress,
    Expected::AnyAddress,
    Expected::AnyAddress,
    Expected::AnyAddress,
    Expected::Closing(0x30),
];

const AFTER_PROGRAM: [Expected; 6] = [
    Expected::AnyAddress,
    Expected::AnyAddress,
    Expected::AnyAddress,
    Expected::AnyAddress,
    Expected::AnyAddress,
    Expected::AnyByte,
];

const AFTER_ERASE: [Expected; 4] = [
    Expected::AnyAddress,
    Expected::AnyAddress,
    Expected::AnyAddress,
    Expected::Closing(0xd0),
];

const AFTER_SET_FEATURES: [Expected; 5] = [
    Expected::Feature,
    Expected::AnyByte,
    Expected::AnyByte,
    Expected::AnyByte,
    Expected::AnyByte,
];

const AFTER_GET_FEATURES: [Expected; 1] = [Expected::Feature];

/// The operation that cycles spell, or the first fault in them.
pub fn op_of(cycles: &[Cycle]) -> Result<Op, CycleFault>
    requires { length cycles.now < 2 ^ 32 }
    ensures { result ≡ operation_of cycles.now }
{
    if cycles.is_empty() {
        return Err(CycleFault::Short { at: 0 });
    }
    let Cycle::Command(command) = cycles[0] else {
        return Err(CycleFault::Wrong { at: 0 });
    };
    match command {
        0x00 => read_of(cycles),
        0x80 => program_of(cycles),
        0x60 => erase_of(cycles),
        0x70 => alone(cycles, Op::Status),
        0xff => alone(cycles, Op::Reset),
        0xef => set_features_of(cycles),
        0xee => get_features_of(cycles),
        _ => Err(CycleFault::Unknown { byte: command }),
    }
}

fn read_of(cycles: &[Cycle]) -> Result<Op, CycleFault>
    requires some { 1 ≤ length cycles.now }
    requires few { length cycles.now < 2 ^ 32 }
    ensures { result ≡ unless_fault (first_fault end_fault after_read 1 (drop 1 cycles.now))
        (Op.Read (column_at cycles.now 1) (row_at cycles.now 3)) }
{
    match fault_to_end(cycles, &AFTER_READ) {
        Some(fault) => Err(fault),
        None => Ok(Op::Read {
            column: column(cycles, 1),
            row: row(cycles, 3),
        }),
    }
}

fn program_of(cycles: &[Cycle]) -> Result<Op, CycleFault>
    requires some { 1 ≤ length cycles.now }
    requires few { length cycles.now < 2 ^ 32 }
    ensures { result ≡ unless_fault (first_fault data_fault after_program 1 (drop 1 cycles.now))
        (Op.Program (column_at cycles.now 1) (row_at cycles.now 3)) }
{
    match fault_to_data(cycles, &AFTER_PROGRAM) {
        Some(fault) => Err(fault),
        None => Ok(Op::Program {
            column: column(cycles, 1),
            row: row(cycles, 3),
        }),
    }
}

fn erase_of(cycles: &[Cycle]) -> Result<Op, CycleFault>
    requires some { 1 ≤ length cycles.now }
    requires few { length cycles.now < 2 ^ 32 }
    ensures { result ≡ unless_fault (first_fault end_fault after_erase 1 (drop 1 cycles.now)) (Op.Erase (row_at cycles.now 1)) }
{
    match fault_to_end(cycles, &AFTER_ERASE) {
        Some(fault) => Err(fault),
        None => Ok(Op::Erase {
            row: row(cycles, 1),
        }),
    }
}

fn set_features_of(cycles: &[Cycle]) -> Result<Op, CycleFault>
    requires some { 1 ≤ length cycles.now }
    requires few { length cycles.now < 2 ^ 32 }
    ensures { result ≡ unless_fault (first_fault end_fault after_set_features 1 (drop 1 cycles.now))
        (Op.SetFeatures (value_at cycles.now 1) (params_at cycles.now 2)) }
{
    match fault_to_end(cycles, &AFTER_SET_FEATURES) {
        Some(fault) => Err(fault),
        None => Ok(Op::SetFeatures {
            address: value(cycles, 1),
            params: params(cycles, 2),
        }),
    }
}

fn get_features_of(cycles: &[Cycle]) -> Result<Op, CycleFault>
    requires some { 1 ≤ length cycles.now }
    requires few { length cycles.now < 2 ^ 32 }
    ensures { result ≡ unless_fault (first_fault end_fault after_get_features 1 (drop 1 cycles.now))
        (Op.GetFeatures (value_at cycles.now 1)) }
{
    match fault_to_end(cycles, &AFTER_GET_FEATURES) {
        Some(fault) => Err(fault),
        None => Ok(Op::GetFeatures {
            address: value(cycles, 1),
        }),
    }
}

// An operation of one cycle.
fn alone(cycles: &[Cycle], op: Op) -> Result<Op, CycleFault>
    requires some { 1 ≤ length cycles.now }
    requires few { length cycles.now < 2 ^ 32 }
    ensures { result ≡ unless_fault (end_fault 1 (drop 1 cycles.now)) op }
{
    match fault_at_end(cycles, 1) {
        Some(fault) => Err(fault),
        None => Ok(op),
    }
}

// The first fault after the first cycle, where these kinds are expected and then the end.
fn fault_to_end(cycles: &[Cycle], expected: &[Expected]) -> Option<CycleFault>
    requires some { 1 ≤ length cycles.now }
    requires few { length cycles.now < 2 ^ 32 }
    ensures fault { result ≡ first_fault end_fault expected.now 1 (drop 1 cycles.now) }
    ensures long { IfNone result (length expected.now < length cycles.now) }
{
    match fault_of_kinds(cycles, expected) {
        Some(fault) => Some(fault),
        None => fault_at_end(cycles, expected.len() + 1),
    }
}

// The same, where a program's further data come before the end.
fn fault_to_data(cycles: &[Cycle], expected: &[Expected]) -> Option<CycleFault>
    requires some { 1 ≤ length cycles.now }
    requires few { length cycles.now < 2 ^ 32 }
    ensures fault { result ≡ first_fault data_fault expected.now 1 (drop 1 cycles.now) }
    ensures long { IfNone result (length expected.now < length cycles.now) }
{
    match fault_of_kinds(cycles, expected) {
        Some(fault) => Some(fault),
        None => fault_of_data(cycles, expected.len() + 1),
    }
}

// The first fault of the cycles at whose places these kinds are expected, whatever is to follow.
fn fault_of_kinds(cycles: &[Cycle], expected: &[Expected]) -> Option<CycleFault>
    requires some { 1 ≤ length cycles.now }
    requires few { length cycles.now < 2 ^ 32 }
    ensures long { IfNone result (length expected.now < length cycles.now) }
    ensures passed { IfNone result ((rest : ℕ → List Cycle → Option CycleFault) →
        first_fault rest expected.now 1 (drop 1 cycles.now)
        ≡ rest (length expected.now + 1) (drop (length expected.now + 1) cycles.now)) }
    ensures failed { IfSome result (λ fault. (rest : ℕ → List Cycle → Option CycleFault) →
        first_fault rest expected.now 1 (drop 1 cycles.now) ≡ Some fault) }
{
    for (i, kind) in expected.iter().enumerate() {
        if i + 1 >= cycles.len() {
            return Some(CycleFault::Short { at: (i + 1) as u32 });
        }
        if !is_of_kind(cycles[i + 1], *kind) {
            return Some(CycleFault::Wrong { at: (i + 1) as u32 });
        }
    }
    None
}

fn is_of_kind(cycle: Cycle, kind: Expected) -> bool
    ensures { result ≡ is_as_expected kind cycle }
{
    match (kind, cycle) {
        (Expected::AnyAddress, Cycle::Address(_)) => true,
        (Expected::Feature, Cycle::Address(byte)) => byte >= 0x80,
        (Expected::AnyByte, Cycle::Byte(_)) => true,
        (Expected::Closing(command), Cycle::Command(byte)) => byte == command,
        _ => false,
    }
}

// The fault of a cycle at this place, where none is to stand.
fn fault_at_end(cycles: &[Cycle], place: usize) -> Option<CycleFault>
    requires few { length cycles.now < 2 ^ 32 }
    requires within { place ≤ length cycles.now }
    ensures { result ≡ end_fault place (drop place cycles.now) }
{
    if place < cycles.len() {
        return Some(CycleFault::Extra { at: place as u32 });
    }
    None
}

// The first fault from this place on, where data bytes and then the last command of a program are to stand.
fn fault_of_data(cycles: &[Cycle], place: usize) -> Option<CycleFault>
    requires few { length cycles.now < 2 ^ 32 }
    requires within { place ≤ length cycles.now }
    ensures { result ≡ data_fault place (drop place cycles.now) }
{
    for i in place..cycles.len() {
        match cycles[i] {
            Cycle::Byte(_) => {}
            Cycle::Command(0x10) => return fault_at_end(cycles, i + 1),
            _ => return Some(CycleFault::Wrong { at: i as u32 }),
        }
    }
    Some(CycleFault::Short {
        at: cycles.len() as u32,
    })
}

// The number in one cycle.
fn value(cycles: &[Cycle], k: usize) -> u8
    requires { k < length cycles.now }
    ensures { result ≡ value_at cycles.now k }
{
    match cycles[k] {
        Cycle::Command(byte) | Cycle::Address(byte) | Cycle::Byte(byte) => byte,
    }
}

fn column(cycles: &[Cycle], k: usize) -> u16
    requires { k + 1 < length cycles.now }
    ensures { result ≡ column_at cycles.now k }
{
    u16::from(value(cycles, k)) + 256 * u16::from(value(cycles, k + 1))
}

fn row(cycles: &[Cycle], k: usize) -> u32
    requires { k + 2 < length cycles.now }
    ensures low { result ≡ row_at cycles.now k }
    ensures bound { result < 2 ^ 24 }
{
    u32::from(value(cycles, k))
        + 256 * u32::from(value(cycles, k + 1))
        + 65_536 * u32::from(value(cycles, k + 2))
}

fn params(cycles: &[Cycle], k: usize) -> [u8; 4]
    requires { k + 3 < length cycles.now }
    ensures { result ≡ params_at cycles.now k }
{
    [
        value(cycles, k),
        value(cycles, k + 1),
        value(cycles, k + 2),
        value(cycles, k + 3),
    ]
}

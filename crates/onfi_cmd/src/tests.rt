ghost use Rattle.onfi_cmd.specs.Cycles.{HasNoOtherBytes, HasRowInRange};

use super::Cycle::{Address, Byte, Command};
use super::*;
use ssd_geo::Shape;
use std::alloc::Global;
use std::test::Fail;

const ZERO: Cycle = Address(0);

const BYTE: Cycle = Byte(0);

// What cycles spell, where they are few.
fn spelled(cycles: &[Cycle]) -> Option<Result<Op, CycleFault>> {
    if cycles.len() > 10 {
        return None;
    }
    Some(op_of(cycles))
}

// Whether an operation has these cycles, and they spell it.
fn is_spelled(alloc: Global, op: Op, bytes: &[u8], cycles: &[Cycle]) -> Result<bool, Fail>
    requires row { HasRowInRange op }
    requires data_bytes { HasNoOtherBytes op bytes.now }
{
    let mut out = Vec::new(alloc);
    cycles_into(op, bytes, &mut out).ok().ok_or("memory")?;
    Ok(out.as_slice() == cycles && spelled(cycles) == Some(Ok(op)))
}

// Each operation and its cycles, written out by hand from the table of the profile.
#[test]
fn a_read_and_its_cycles_match(rt: HostRuntime) -> Result<(), Fail> {
    let cycles = [
        Command(0x00),
        Address(0x01),
        Address(0x02),
        Address(0x03),
        Address(0x04),
        Address(0x05),
        Command(0x30),
    ];
    let op = Op::Read {
        column: 0x0201,
        row: 0x05_0403,
    };
    assert!(rt; is_spelled(rt.alloc(), op, &[], &cycles)?);
    Ok(())
}

#[test]
fn a_program_and_its_cycles_match(rt: HostRuntime) -> Result<(), Fail> {
    let cycles = [
        Command(0x80),
        ZERO,
        ZERO,
        Address(0x53),
        ZERO,
        ZERO,
        Byte(7),
        Byte(8),
        Command(0x10),
    ];
    let op = Op::Program {
        column: 0,
        row: 0x53,
    };
    assert!(rt; is_spelled(rt.alloc(), op, &[7, 8], &cycles)?);
    Ok(())
}

#[test]
fn an_erase_and_its_cycles_match(rt: HostRuntime) -> Result<(), Fail> {
    let cycles = [Command(0x60), Address(0x53), ZERO, ZERO, Command(0xd0)];
    let op = Op::Erase { row: 0x53 };
    assert!(rt; is_spelled(rt.alloc(), op, &[], &cycles)?);
    Ok(())
}

#[test]
fn short_operations_and_their_cycles_match(rt: HostRuntime) -> Result<(), Fail> {
    let alloc = rt.alloc();
    assert!(rt; is_spelled(alloc, Op::Status, &[], &[Command(0x70)])?);
    assert!(rt; is_spelled(alloc, Op::Reset, &[], &[Command(0xff)])?);
    let get = Op::GetFeatures { address: 0x89 };
    assert!(rt; is_spelled(alloc, get, &[], &[Command(0xee), Address(0x89)])?);
    Ok(())
}

#[test]
fn a_read_level_that_is_set_and_its_cycles_match(rt: HostRuntime) -> Result<(), Fail> {
    let params = level_params(-3);
    assert_eq!(rt; params, [0xfd, 0xff, 0, 0]);
    let cycles = [
        Command(0xef),
        Address(0x89),
        Byte(0xfd),
        Byte(0xff),
        Byte(0),
        Byte(0),
    ];
    let op = Op::SetFeatures {
        address: 0x89,
        params,
    };
    assert!(rt; is_spelled(rt.alloc(), op, &[], &cycles)?);
    Ok(())
}

// Cycles and the first fault in them.
fn first_faults() -> [(&'static [Cycle], CycleFault); 10] {
    [
        (&[Address(0x00)], CycleFault::Wrong { at: 0 }),
        (&[Byte(0x70)], CycleFault::Wrong { at: 0 }),
        (&[Command(0x01)], CycleFault::Unknown { byte: 0x01 }),
        (&[Command(0x30), ZERO], CycleFault::Unknown { byte: 0x30 }),
        (&[Command(0x70), Command(0x70)], CycleFault::Extra { at: 1 }),
        (&[Command(0xff), ZERO], CycleFault::Extra { at: 1 }),
        (&[Command(0x00), BYTE], CycleFault::Wrong { at: 1 }),
        (&[Command(0xee)], CycleFault::Short { at: 1 }),
        (&[], CycleFault::Short { at: 0 }),
        (
            &[Command(0x00), ZERO, ZERO, ZERO, ZERO, ZERO],
            CycleFault::Short { at: 6 },
        ),
    ]
}

// The same of erases and features.
fn first_faults_behind_addresses() -> [(&'static [Cycle], CycleFault); 7] {
    [
        (
            &[Command(0x60), ZERO, ZERO, Command(0xd0)],
            CycleFault::Wrong { at: 3 },
        ),
        (
            &[Command(0x60), ZERO, ZERO, ZERO, Command(0x30)],
            CycleFault::Wrong { at: 4 },
        ),
        (
            &[Command(0x60), ZERO, ZERO, ZERO, Command(0xd0), BYTE],
            CycleFault::Extra { at: 5 },
        ),
        (
            &[Command(0xef), Address(0x7f), BYTE],
            CycleFault::Wrong { at: 1 },
        ),
        (
            &[Command(0xef), Address(0x89), BYTE, BYTE, BYTE],
            CycleFault::Short { at: 5 },
        ),
        (&[Command(0xee), Address(0x7f)], CycleFault::Wrong { at: 1 }),
        (
            &[Command(0xee), Address(0x80), BYTE],
            CycleFault::Extra { at: 2 },
        ),
    ]
}

// A program without a data byte, with an address among its data, and with a cycle after its end.
fn first_faults_of_programs() -> [(&'static [Cycle], CycleFault); 6] {
    [
        (
            &[Command(0x80), ZERO, ZERO, ZERO, ZERO, ZERO],
            CycleFault::Short { at: 6 },
        ),
        (
            &[Command(0x80), ZERO, ZERO, ZERO, ZERO, ZERO, Command(0x10)],
            CycleFault::Wrong { at: 6 },
        ),
        (
            &[Command(0x80), ZERO, ZERO, ZERO, ZERO, ZERO, BYTE],
            CycleFault::Short { at: 7 },
        ),
        (
            &[Command(0x80), ZERO, ZERO, ZERO, ZERO, ZERO, BYTE, ZERO],
            CycleFault::Wrong { at: 7 },
        ),
        (
            &[
                Command(0x80),
                ZERO,
                ZERO,
                ZERO,
                ZERO,
                ZERO,
                BYTE,
                Command(0x30),
            ],
            CycleFault::Wrong { at: 7 },
        ),
        (
            &[
                Command(0x80),
                ZERO,
                ZERO,
                ZERO,
                ZERO,
                ZERO,
                BYTE,
                Command(0x10),
                BYTE,
            ],
            CycleFault::Extra { at: 8 },
        ),
    ]
}

// The first cycles that have another first fault.
fn first_other(cases: &[(&'static [Cycle], CycleFault)]) -> Option<&'static [Cycle]> {
    for (cycles, fault) in cases {
        if spelled(cycles) != Some(Err(*fault)) {
            return Some(*cycles);
        }
    }
    None
}

#[test]
fn the_first_fault_is_named(rt: HostRuntime) {
    assert!(rt; first_other(&first_faults()).is_none());
    assert!(rt; first_other(&first_faults_behind_addresses()).is_none());
    assert!(rt; first_other(&first_faults_of_programs()).is_none());
}

fn operations() -> [&'static [Cycle]; 7] {
    [
        &[Command(0x00), ZERO, ZERO, ZERO, ZERO, ZERO, Command(0x30)],
        &[
            Command(0x80),
            ZERO,
            ZERO,
            ZERO,
            ZERO,
            ZERO,
            BYTE,
            BYTE,
            Command(0x10),
        ],
        &[Command(0x60), ZERO, ZERO, ZERO, Command(0xd0)],
        &[Command(0x70)],
        &[Command(0xff)],
        &[Command(0xef), Address(0x89), BYTE, BYTE, BYTE, BYTE],
        &[Command(0xee), Address(0x89)],
    ]
}

// Cycles with one more behind them, or with an address in the place of a cycle and a byte in that of an address.
fn changed(alloc: Global, cycles: &[Cycle], at: usize) -> Result<Vec<Cycle>, Fail> {
    let mut changed = Vec::new(alloc);
    for (place, cycle) in cycles.iter().enumerate() {
        let other = if let Address(_) = cycle { BYTE } else { ZERO };
        changed.push(if place == at { other } else { *cycle })?;
    }
    if at >= cycles.len() {
        changed.push(ZERO)?;
    }
    Ok(changed)
}

// Each operation ends too early before each of its cycles, has a wrong cycle at each place, and one after its end.
#[test]
fn a_fault_is_named_at_each_place(rt: HostRuntime) -> Result<(), Fail> {
    for cycles in operations() {
        assert!(rt; cycles.len() < 10);
        for at in 0..cycles.len() {
            let place = at as u32;
            let wrong = changed(rt.alloc(), cycles, at)?;
            assert_eq!(rt;
                spelled(&cycles[..at]),
                Some(Err(CycleFault::Short { at: place }))
            );
            assert_eq!(rt; spelled(&wrong), Some(Err(CycleFault::Wrong { at: place })));
        }
        let at = cycles.len() as u32;
        let longer = changed(rt.alloc(), cycles, cycles.len())?;
        assert_eq!(rt; spelled(&longer), Some(Err(CycleFault::Extra { at })));
    }
    Ok(())
}

#[test]
fn rows_hold_a_page_and_its_block(rt: HostRuntime) -> Result<(), Fail> {
    let shape = Shape::new(1, 1, 3, 8, 16, 64, 3, 6, 8, 8)
        .ok()
        .ok_or("shape")?;
    assert_eq!(rt; shape.superblocks, 8);
    assert_eq!(rt; shape.pages, 16);
    assert_eq!(rt; row_address(&shape, 5, 3), 0x53);
    assert_eq!(rt; row_place(&shape, 0x53), (5, 3));
    Ok(())
}

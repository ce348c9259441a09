use super::*;
use calls::{FAILED_CALL, plan_of, programmed};
use onfi_cmd::{Die, DieStop};
use std::test::Fail;
use steps::{Bits, Step, first_other};

mod calls;
mod steps;

// A test's steps are calls after a mount. The levels and senses were worked out by hand from the rules.
const PASSED: u8 = 0xe0;

const FAILED: u8 = 0xe1;

#[test]
fn a_blank_page_reads_as_erased(rt: HostRuntime) -> Result<(), Fail> {
    let plan = plan_of(rt.alloc())?;
    let steps = [
        Step::Sense {
            sb: 1,
            level: -99,
            bits: Bits::Ones,
        },
        Step::Sense {
            sb: 1,
            level: -100,
            bits: Bits::Zeros,
        },
    ];
    assert_eq!(rt;
        first_other(&mut SimDie::new(), rt.alloc(), &plan, &steps)?,
        None
    );
    Ok(())
}

#[test]
fn a_programmed_page_reads_as_its_word(rt: HostRuntime) -> Result<(), Fail> {
    let plan = plan_of(rt.alloc())?;
    let steps = [
        Step::Program {
            sb: 1,
            status: PASSED,
        },
        Step::Programmed { sb: 1, pages: 1 },
        Step::Sense {
            sb: 1,
            level: 0,
            bits: Bits::Programmed,
        },
        Step::Sense {
            sb: 1,
            level: 101,
            bits: Bits::Ones,
        },
    ];
    assert_eq!(rt;
        first_other(&mut SimDie::new(), rt.alloc(), &plan, &steps)?,
        None
    );
    Ok(())
}

// Aged by 150, a 0 lies at -50: level 0 reads it as 1, and -60 reads it right.
#[test]
fn an_aged_page_wants_a_lower_level(rt: HostRuntime) -> Result<(), Fail> {
    let plan = plan_of(rt.alloc())?;
    let steps = [
        Step::Program {
            sb: 1,
            status: PASSED,
        },
        Step::Age { sb: 1, amount: 150 },
        Step::Sense {
            sb: 1,
            level: 0,
            bits: Bits::Ones,
        },
        Step::Sense {
            sb: 1,
            level: -60,
            bits: Bits::Programmed,
        },
    ];
    assert_eq!(rt;
        first_other(&mut SimDie::new(), rt.alloc(), &plan, &steps)?,
        None
    );
    Ok(())
}

#[test]
fn a_loaded_page_has_its_levels(rt: HostRuntime) -> Result<(), Fail> {
    let plan = plan_of(rt.alloc())?;
    let steps = [
        Step::LoadPage {
            sb: 3,
            level: -100,
            ninth: 42,
            passes: true,
        },
        Step::CopyLevels {
            sb: 3,
            level: -100,
            ninth: 42,
            passes: true,
        },
        Step::Sense {
            sb: 3,
            level: 42,
            bits: Bits::OnesButNinth,
        },
    ];
    assert_eq!(rt;
        first_other(&mut SimDie::new(), rt.alloc(), &plan, &steps)?,
        None
    );
    Ok(())
}

// Block 2 is weak from 5 erases on. Read Status tells a FAIL until another operation passes, or the die is mounted.
#[test]
fn a_die_tells_its_last_status(rt: HostRuntime) -> Result<(), Fail> {
    let plan = plan_of(rt.alloc())?;
    let steps = [
        Step::Status {
            answer: PASSED,
            byte: PASSED,
        },
        Step::EraseAfter {
            sb: 2,
            erases: 5,
            status: FAILED,
        },
        Step::Status {
            answer: FAILED,
            byte: FAILED,
        },
        Step::Age { sb: 2, amount: 1 },
        Step::Status {
            answer: FAILED,
            byte: FAILED,
        },
        Step::Program {
            sb: 1,
            status: PASSED,
        },
        Step::Status {
            answer: PASSED,
            byte: PASSED,
        },
        Step::Program {
            sb: 2,
            status: FAILED,
        },
        Step::Mount,
        Step::Status {
            answer: PASSED,
            byte: PASSED,
        },
    ];
    assert_eq!(rt;
        first_other(&mut SimDie::new(), rt.alloc(), &plan, &steps)?,
        None
    );
    Ok(())
}

// -60 is ffc4h in 16 bits.
#[test]
fn a_reset_sets_the_read_level_back(rt: HostRuntime) -> Result<(), Fail> {
    let plan = plan_of(rt.alloc())?;
    let steps = [
        Step::Sense {
            sb: 1,
            level: -60,
            bits: Bits::Ones,
        },
        Step::ReadLevel {
            params: [0xc4, 0xff, 0, 0],
        },
        Step::Reset,
        Step::ReadLevel { params: [0; 4] },
    ];
    assert_eq!(rt;
        first_other(&mut SimDie::new(), rt.alloc(), &plan, &steps)?,
        None
    );
    Ok(())
}

// The fifth erase passes, and makes the block weak.
#[test]
fn an_erase_takes_the_pages_and_is_counted(rt: HostRuntime) -> Result<(), Fail> {
    let plan = plan_of(rt.alloc())?;
    let steps = [
        Step::Program {
            sb: 2,
            status: PASSED,
        },
        Step::EraseAfter {
            sb: 2,
            erases: 4,
            status: PASSED,
        },
        Step::Programmed { sb: 2, pages: 0 },
        Step::Sense {
            sb: 2,
            level: -99,
            bits: Bits::Ones,
        },
        Step::Program {
            sb: 2,
            status: FAILED,
        },
    ];
    assert_eq!(rt;
        first_other(&mut SimDie::new(), rt.alloc(), &plan, &steps)?,
        None
    );
    Ok(())
}

#[test]
fn a_weak_block_stays_as_it_is(rt: HostRuntime) -> Result<(), Fail> {
    let plan = plan_of(rt.alloc())?;
    let steps = [
        Step::Program {
            sb: 2,
            status: PASSED,
        },
        Step::EraseAfter {
            sb: 2,
            erases: 5,
            status: FAILED,
        },
        Step::Program {
            sb: 2,
            status: FAILED,
        },
        Step::Programmed { sb: 2, pages: 1 },
        Step::Sense {
            sb: 2,
            level: 0,
            bits: Bits::Programmed,
        },
    ];
    assert_eq!(rt;
        first_other(&mut SimDie::new(), rt.alloc(), &plan, &steps)?,
        None
    );
    Ok(())
}

// The mount is the first of the calls that the second list is of.
#[test]
fn a_listed_run_fails(rt: HostRuntime) -> Result<(), Fail> {
    let plan = plan_of(rt.alloc())?;
    let runs = vec![in rt.alloc(); 2]?;
    let mut die = ListedFaults::new(SimDie::new(), runs, Vec::new(rt.alloc()));
    let steps = [
        Step::Program {
            sb: 1,
            status: PASSED,
        },
        Step::Program {
            sb: 1,
            status: FAILED_CALL,
        },
        Step::Programmed { sb: 1, pages: 1 },
        Step::Program {
            sb: 1,
            status: PASSED,
        },
    ];
    assert_eq!(rt; first_other(&mut die, rt.alloc(), &plan, &steps)?, None);
    assert_eq!(rt; programmed(die.inner(), &plan, 1)?, 2);
    Ok(())
}

#[test]
fn a_failed_run_leaves_what_it_was_to_fill(rt: HostRuntime) -> Result<(), Fail> {
    let plan = plan_of(rt.alloc())?;
    let runs = vec![in rt.alloc(); 1]?;
    let mut die = ListedFaults::new(SimDie::new(), runs, Vec::new(rt.alloc()));
    let steps = [
        Step::Status {
            answer: FAILED_CALL,
            byte: 7,
        },
        Step::Status {
            answer: PASSED,
            byte: PASSED,
        },
    ];
    assert_eq!(rt; first_other(&mut die, rt.alloc(), &plan, &steps)?, None);
    Ok(())
}

#[test]
fn a_listed_mount_and_a_listed_load_of_a_block_fail(rt: HostRuntime) -> Result<(), Fail> {
    let plan = plan_of(rt.alloc())?;
    let loads = vec![in rt.alloc(); 1, 3]?;
    let mut die = ListedFaults::new(SimDie::new(), Vec::new(rt.alloc()), loads);
    assert_eq!(rt; die.mount(rt.alloc(), &plan), Err(DieStop::Failed));
    let steps = [
        Step::LoadBlock {
            sb: 0,
            passes: false,
        },
        Step::LoadBlock {
            sb: 0,
            passes: true,
        },
    ];
    assert_eq!(rt; first_other(&mut die, rt.alloc(), &plan, &steps)?, None);
    Ok(())
}

// Runs and an aging stand between the listed calls, and aren't counted with them.
#[test]
fn a_listed_load_of_a_page_and_a_listed_copy_fail(rt: HostRuntime) -> Result<(), Fail> {
    let plan = plan_of(rt.alloc())?;
    let loads = vec![in rt.alloc(); 2, 4]?;
    let mut die = ListedFaults::new(SimDie::new(), Vec::new(rt.alloc()), loads);
    let steps = [
        Step::Program {
            sb: 1,
            status: PASSED,
        },
        Step::LoadPage {
            sb: 3,
            level: 42,
            ninth: 42,
            passes: false,
        },
        Step::Programmed { sb: 3, pages: 0 },
        Step::LoadPage {
            sb: 3,
            level: 42,
            ninth: 42,
            passes: true,
        },
        Step::Age { sb: 3, amount: 2 },
        Step::CopyLevels {
            sb: 3,
            level: 9,
            ninth: 9,
            passes: false,
        },
        Step::CopyLevels {
            sb: 3,
            level: 40,
            ninth: 40,
            passes: true,
        },
    ];
    assert_eq!(rt; first_other(&mut die, rt.alloc(), &plan, &steps)?, None);
    Ok(())
}

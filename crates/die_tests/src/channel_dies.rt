use crate::small_dies::{
    FIRST, SECOND, SUM, age, erase, failing, program_stripe, sense, simulated, started,
};
use chan_dies::{EraseEnd, ProgramEnd};
use ssd_geo::{Place, Weak};
use std::test::Fail;

// The pages of stripe 0 of superblock 0: that of its parity, and those of its two slots.
const PARITY: Place = Place {
    die: 0,
    sb: 0,
    page: 0,
};

const FIRST_PLACE: Place = Place {
    die: 1,
    sb: 0,
    page: 0,
};

const SECOND_PLACE: Place = Place {
    die: 2,
    sb: 0,
    page: 0,
};

// A page that no test programs.
const BLANK_PLACE: Place = Place {
    die: 1,
    sb: 0,
    page: 1,
};

const ONES: [u8; 48] = [0xff; 48];

const PROGRAMMED: (ProgramEnd, ProgramEnd) = (ProgramEnd::Programmed, ProgramEnd::Programmed);

#[test]
fn a_stripe_has_its_words_and_their_sum(rt: HostRuntime) -> Result<(), Fail> {
    let mut dies = simulated(rt.alloc(), &[])?;
    assert_eq!(rt; program_stripe(&mut dies), PROGRAMMED);
    assert_eq!(rt; sense(&mut dies, FIRST_PLACE, 0)?, FIRST);
    assert_eq!(rt; sense(&mut dies, SECOND_PLACE, 0)?, SECOND);
    assert_eq!(rt; sense(&mut dies, PARITY, 0)?, SUM);
    assert_eq!(rt; sense(&mut dies, BLANK_PLACE, 0)?, ONES);
    assert_eq!(rt; dies.shape().dies, 3);
    assert_eq!(rt; dies.into_parts().0.len(), 3);
    Ok(())
}

// Aged by 150, a 0 lies at -50: level 0 reads it as 1, and -60 reads it right.
#[test]
fn an_aged_page_wants_a_lower_level(rt: HostRuntime) -> Result<(), Fail> {
    let mut dies = simulated(rt.alloc(), &[])?;
    assert_eq!(rt; program_stripe(&mut dies), PROGRAMMED);
    age(&mut dies, 1, 150)?;
    assert_eq!(rt; sense(&mut dies, FIRST_PLACE, 0)?, ONES);
    assert_eq!(rt; sense(&mut dies, FIRST_PLACE, -60)?, FIRST);
    assert_eq!(rt; sense(&mut dies, SECOND_PLACE, 0)?, SECOND);
    Ok(())
}

// The sum is cleared where a program stops, so that the word of the next slot is alone in it.
#[test]
fn a_fault_of_the_slots_die_is_told(rt: HostRuntime) -> Result<(), Fail> {
    let alloc = rt.alloc();
    let (zero, one) = (failing(alloc, &[])?, failing(alloc, &[1])?);
    let mut dies = started(alloc, zero, one, failing(alloc, &[])?, &[])?;
    let ends = program_stripe(&mut dies);
    assert_eq!(rt;
        ends,
        (ProgramEnd::Fault { die: 1 }, ProgramEnd::Programmed)
    );
    assert_eq!(rt; sense(&mut dies, FIRST_PLACE, 0)?, ONES);
    assert_eq!(rt; sense(&mut dies, PARITY, 0)?, SECOND);
    Ok(())
}

#[test]
fn a_fault_of_the_paritys_die_leaves_the_word(rt: HostRuntime) -> Result<(), Fail> {
    let alloc = rt.alloc();
    let (zero, one) = (failing(alloc, &[1])?, failing(alloc, &[])?);
    let mut dies = started(alloc, zero, one, failing(alloc, &[])?, &[])?;
    let ends = program_stripe(&mut dies);
    assert_eq!(rt;
        ends,
        (ProgramEnd::Programmed, ProgramEnd::Fault { die: 0 })
    );
    age(&mut dies, 1, 150)?;
    assert_eq!(rt; sense(&mut dies, SECOND_PLACE, 0)?, SECOND);
    assert_eq!(rt; dies.shape().dies, 3);
    assert_eq!(rt; dies.into_parts().0.len(), 3);
    Ok(())
}

// The block of die 2 is weak, so that an erase stops there, with the blocks of the other dies erased.
#[test]
fn a_weak_block_answers_fail(rt: HostRuntime) -> Result<(), Fail> {
    let weak = Weak {
        channel: 0,
        die: 2,
        sb: 0,
        from: 0,
    };
    let mut dies = simulated(rt.alloc(), &[weak])?;
    let ends = program_stripe(&mut dies);
    assert_eq!(rt;
        ends,
        (ProgramEnd::Programmed, ProgramEnd::Failed { die: 2 })
    );
    assert_eq!(rt; erase(&mut dies), EraseEnd::Failed { die: 2 });
    assert_eq!(rt; sense(&mut dies, FIRST_PLACE, 0)?, ONES);
    Ok(())
}

#[test]
fn a_superblock_is_erased_after_a_fault(rt: HostRuntime) -> Result<(), Fail> {
    let alloc = rt.alloc();
    let (zero, one) = (failing(alloc, &[])?, failing(alloc, &[1])?);
    let mut dies = started(alloc, zero, one, failing(alloc, &[])?, &[])?;
    let _ = program_stripe(&mut dies);
    assert_eq!(rt; erase(&mut dies), EraseEnd::Erased);
    assert_eq!(rt; sense(&mut dies, SECOND_PLACE, 0)?, ONES);
    Ok(())
}

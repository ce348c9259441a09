// Steps whose dies answer FAIL or fail.
ghost use Rattle.std.specs.Prelude.{◌≡◌, ◌<◌, IfOk};
ghost use Rattle.room_tests.specs.SmallChannel.{IsTried};

use super::moving::copied;
use super::{
    FIRST, FaultyDie, PLACE, SECOND, Wrong, ZEROS, begun_with, entry, is_written, left, looked,
    read, sensed_for, slot, tag, write,
};
use chan_state::{Channel, LookAnswer, MoveAnswer, SenseAnswer, WriteAnswer};
use ssd_geo::{Entry, Kind, Look, StepStop, Weak};
use std::alloc::Global;
use std::test::Fail;
use victim::{Greedy, Policy};

// A block of superblock 0 that answers FAIL from the first program on.
fn weak(die: u8) -> Weak
    ensures { result ≡ record { channel = 0; die = die; sb = 0; from = 0 } }
{
    Weak {
        channel: 0,
        die,
        sb: 0,
        from: 0,
    }
}

// A channel one of whose dies has a weak block.
fn weakened<P: Policy>(alloc: Global, policy: P, die: u8) -> Result<Channel<FaultyDie, P>, Fail>
    requires { die < 3 }
    ensures { IfOk result (λ channel. IsTried channel.kept) }
{
    let wrong = Wrong {
        weak: &[weak(die)],
        runs: [&[], &[], &[]],
    };
    begun_with(alloc, &wrong, policy, 4096)
}

// A channel each of whose dies fails these of its runs.
fn failing<P: Policy>(
    alloc: Global,
    policy: P,
    runs: [&[u64]; 3],
) -> Result<Channel<FaultyDie, P>, Fail>
    ensures { IfOk result (λ channel. IsTried channel.kept) }
{
    begun_with(alloc, &Wrong { weak: &[], runs }, policy, 4096)
}

// The entry of a write that didn't program.
fn bad_write(call: u32, row: u32, index: u32, die: u8, fault: bool) -> Entry {
    entry(
        call,
        Kind::BadWrite {
            row,
            slot: slot(0, index),
            die,
            fault,
        },
    )
}

#[test]
fn a_weak_block_fails_a_write(rt: HostRuntime) -> Result<(), Fail> {
    let mut channel = weakened(rt.alloc(), Greedy::new(), 1)?;
    let answer = write(&mut channel, 0, 3, &FIRST);
    assert_eq!(rt; answer, Ok(WriteAnswer::Failed { sb: 0 }));
    assert_eq!(rt;
        channel.history().last(),
        Some(&bad_write(0, 3, 0, 1, false))
    );
    assert!(rt; is_written(write(&mut channel, 0, 3, &FIRST), slot(1, 0)));
    Ok(())
}

#[test]
fn a_weak_block_of_the_parity_fails_the_last_write_of_a_stripe(
    rt: HostRuntime,
) -> Result<(), Fail> {
    let mut channel = weakened(rt.alloc(), Greedy::new(), 0)?;
    assert!(rt; is_written(write(&mut channel, 0, 2, &FIRST), slot(0, 0)));
    let answer = write(&mut channel, 1, 3, &SECOND);
    assert_eq!(rt; answer, Ok(WriteAnswer::Failed { sb: 0 }));
    assert_eq!(rt;
        channel.history().last(),
        Some(&bad_write(1, 3, 1, 0, false))
    );
    // The older page stays where it is, and its stripe is never closed.
    let look = Look {
        at: 2,
        row: 2,
        slot: slot(0, 0),
        serial: 0,
        closed: false,
    };
    let mut out = [0; 48];
    assert_eq!(rt;
        read(&mut channel, 2, 2, 0, &mut out),
        Ok(LookAnswer::Found(look))
    );
    Ok(())
}

#[test]
fn a_failed_run_ends_a_write(rt: HostRuntime) -> Result<(), Fail> {
    let mut channel = failing(rt.alloc(), Greedy::new(), [&[1], &[], &[]])?;
    assert!(rt; is_written(write(&mut channel, 0, 2, &FIRST), slot(0, 0)));
    let answer = write(&mut channel, 1, 3, &SECOND);
    assert_eq!(rt; answer, Ok(WriteAnswer::DieFault { die: 0 }));
    assert_eq!(rt;
        channel.history().last(),
        Some(&bad_write(1, 3, 1, 0, true))
    );
    assert!(rt; is_written(write(&mut channel, 2, 3, &SECOND), slot(1, 0)));
    Ok(())
}

// A copy that went wrong leaves the page where it was.
fn stays<P: Policy>(
    channel: &mut Channel<FaultyDie, P>,
    answer: MoveAnswer,
    fault: bool,
) -> Result<bool, Fail>
    requires { IsTried channel.old.kept }
{
    let written = is_written(write(channel, 0, 3, &FIRST), slot(0, 0));
    let failed = copied(channel, 1, 3, &FIRST) == Ok(Some(answer));
    let bad = entry(
        1,
        Kind::BadCopy {
            at: 1,
            slot: slot(0, 1),
            die: 2,
            fault,
        },
    );
    let entered = channel.history().get(2) == Some(&bad);
    let mut out = [0; 48];
    let found = read(channel, 2, 3, 0, &mut out)?;
    let look = Look {
        at: 4,
        row: 3,
        slot: slot(0, 0),
        serial: 0,
        closed: false,
    };
    Ok(written && failed && entered && found == LookAnswer::Found(look))
}

#[test]
fn a_weak_block_fails_a_copy(rt: HostRuntime) -> Result<(), Fail> {
    let mut channel = weakened(rt.alloc(), Greedy::new(), 2)?;
    assert!(rt; stays(&mut channel, MoveAnswer::Failed { sb: 0 }, false)?);
    Ok(())
}

#[test]
fn a_failed_run_ends_a_copy(rt: HostRuntime) -> Result<(), Fail> {
    let mut channel = failing(rt.alloc(), Greedy::new(), [&[], &[], &[1]])?;
    assert!(rt; stays(&mut channel, MoveAnswer::DieFault { die: 2 }, true)?);
    Ok(())
}

// How a sense of the place for a look at row 3 ends, which is left then.
fn sensed_once<P: Policy>(
    channel: &mut Channel<FaultyDie, P>,
    call: u32,
    out: &mut [u8; 48],
) -> Result<Option<SenseAnswer>, StepStop>
    requires { IsTried channel.old.kept }
    ensures { IsTried channel.new.kept }
{
    let by = tag(call);
    let LookAnswer::Found(look) = looked(channel, by, 3)? else {
        return Ok(None);
    };
    let answer = sensed_for(channel, by, look.at, PLACE, 0, out);
    left(channel, by, look.at);
    Ok(Some(answer))
}

#[test]
fn a_failed_run_ends_a_sense(rt: HostRuntime) -> Result<(), Fail> {
    // The first run programs the page, and each sense makes two: one sets the read level, one reads.
    for run in [2, 3] {
        let mut channel = failing(rt.alloc(), Greedy::new(), [&[], &[], &[run]])?;
        let _ = write(&mut channel, 0, 2, &FIRST)?;
        let _ = write(&mut channel, 1, 3, &SECOND)?;
        let mut out = [0; 48];
        let answer = sensed_once(&mut channel, 2, &mut out)?;
        assert_eq!(rt; answer, Some(SenseAnswer::DieFault { die: 2 }));
        assert_eq!(rt; out, ZEROS);
        let fault = entry(
            2,
            Kind::FaultSense {
                at: 2,
                place: PLACE,
                level: 0,
            },
        );
        assert_eq!(rt; channel.history().get(3), Some(&fault));
        let again = sensed_once(&mut channel, 3, &mut out)?;
        assert_eq!(rt; again, Some(SenseAnswer::Sensed));
        assert_eq!(rt; out, SECOND);
    }
    Ok(())
}

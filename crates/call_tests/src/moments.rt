// The moments that whole calls pass, among the steps that they make.
ghost use Rattle.call_tests.specs.SmallCalls.{IsSmallWorker, MayTry, StandsBlank};

use crate::record::{Act, Record, Recorded};
use crate::small_drive::{small_channel, small_head, small_worker};
use chan_calls::{Alone, CopyReply, Gate, Moment, Point, ReadReply, Steps, Worker};
use chan_state::{AgeAnswer, Channel, LookAnswer, WriteAnswer};
use die_model::SimDie;
use ssd_geo::{StepStop, Tag};
use std::alloc::Global;
use std::test::Fail;
use victim::{Greedy, Policy};

const DATA: [u8; 8] = [7; 8];

fn tag(call: u32) -> Tag {
    Tag { actor: 0, call }
}

// Writes the page: the first call.
fn written<S: Steps, G: Gate>(
    worker: &mut Worker,
    steps: &mut S,
    gate: &G,
) -> Result<WriteAnswer, StepStop>
    requires may { MayTry worker.old (S.view steps.old) (S.stands steps.old) }
    ensures { MayTry worker.new (S.view steps.new) (S.stands steps.new) }
{
    worker.write_once(steps, gate, Tag { actor: 0, call: 0 }, 5, &DATA)
}

// Reads it.
fn has_read<S: Steps, G: Gate>(
    worker: &mut Worker,
    steps: &mut S,
    gate: &G,
    call: u32,
) -> Result<ReadReply, StepStop>
    requires { MayTry worker.old (S.view steps.old) (S.stands steps.old) }
    ensures { MayTry worker.new (S.view steps.new) (S.stands steps.new) }
{
    worker.read(steps, gate, tag(call), 5)
}

// Copies it, where its row names a page.
fn copied<S: Steps, G: Gate>(
    worker: &mut Worker,
    steps: &mut S,
    gate: &G,
    call: u32,
    condemn: bool,
) -> Result<Option<CopyReply>, StepStop>
    requires { MayTry worker.old (S.view steps.old) (S.stands steps.old) }
    ensures { MayTry worker.new (S.view steps.new) (S.stands steps.new) }
{
    let by = tag(call);
    match steps.look(by, 5)? {
        LookAnswer::Found(look) => Ok(Some(worker.copy(steps, gate, by, look, condemn))),
        _ => Ok(None),
    }
}

// Ages its block so that the first read level fails.
fn aged<S: Steps>(worker: &Worker, steps: &mut S, call: u32) -> Result<AgeAnswer, StepStop>
    requires { MayTry worker.now (S.view steps.old) (S.stands steps.old) }
    ensures { MayTry worker.now (S.view steps.new) (S.stands steps.new) }
{
    steps.age(tag(call), 1, 0, 130)
}

// Writes a page and reads it, ages its block, and reads the page again.
fn read_twice(
    worker: &mut Worker,
    channel: &mut Channel<SimDie, Greedy>,
    record: &Record,
) -> Result<(ReadReply, ReadReply), StepStop>
    requires worker { IsSmallWorker worker.old }
    requires channel { StandsBlank channel.old.kept (⟦<Greedy as Policy>⟧.told channel.old.policy) }
{
    let mut steps = Recorded::new(Alone::new(channel), record);
    let _ = written(worker, &mut steps, record)?;
    let first = has_read(worker, &mut steps, record, 1)?;
    let _ = aged(worker, &mut steps, 2)?;
    let second = has_read(worker, &mut steps, record, 3)?;
    Ok((first, second))
}

// Writes a page, ages its block, and copies the page.
fn copied_once(
    worker: &mut Worker,
    channel: &mut Channel<SimDie, Greedy>,
    record: &Record,
) -> Result<Option<CopyReply>, StepStop>
    requires worker { IsSmallWorker worker.old }
    requires channel { StandsBlank channel.old.kept (⟦<Greedy as Policy>⟧.told channel.old.policy) }
{
    let mut steps = Recorded::new(Alone::new(channel), record);
    let _ = written(worker, &mut steps, record)?;
    let _ = aged(worker, &mut steps, 1)?;
    copied(worker, &mut steps, record, 2, false)
}

// How the calls of a test were answered, and what they did.
#[derive(Drop)]
struct Tried<T: Drop> {
    answer: T,
    acts: Vec<Act>,
}

// What a write and two reads do on the small drive.
fn reads_of(alloc: Global) -> Result<Tried<(ReadReply, ReadReply)>, Fail> {
    let head = small_head(alloc)?;
    let mut worker = small_worker(alloc, &head)?;
    let mut channel = small_channel(alloc, &head)?;
    let record = Record::new(alloc);
    let answer = read_twice(&mut worker, &mut channel, &record)?;
    let acts = record.finish();
    Ok(Tried { answer, acts })
}

// What a write and a copy do on the small drive.
fn copy_of(alloc: Global) -> Result<Tried<Option<CopyReply>>, Fail> {
    let head = small_head(alloc)?;
    let mut worker = small_worker(alloc, &head)?;
    let mut channel = small_channel(alloc, &head)?;
    let record = Record::new(alloc);
    let answer = copied_once(&mut worker, &mut channel, &record)?;
    let acts = record.finish();
    Ok(Tried { answer, acts })
}

const CALL_0: Tag = Tag { actor: 0, call: 0 };

const CALL_1: Tag = Tag { actor: 0, call: 1 };

const CALL_2: Tag = Tag { actor: 0, call: 2 };

const CALL_3: Tag = Tag { actor: 0, call: 3 };

const READS: [Act; 13] = [
    Act::Pass {
        at: Point {
            tag: CALL_0,
            moment: Moment::Encode,
        },
    },
    Act::Write { by: CALL_0 },
    Act::Look { by: CALL_1 },
    Act::Sense { by: CALL_1 },
    Act::Pass {
        at: Point {
            tag: CALL_1,
            moment: Moment::Decode,
        },
    },
    Act::Leave { by: CALL_1 },
    Act::Other { by: CALL_2 },
    Act::Look { by: CALL_3 },
    Act::Sense { by: CALL_3 },
    Act::Pass {
        at: Point {
            tag: CALL_3,
            moment: Moment::Decode,
        },
    },
    Act::Sense { by: CALL_3 },
    Act::Pass {
        at: Point {
            tag: CALL_3,
            moment: Moment::Decode,
        },
    },
    Act::Leave { by: CALL_3 },
];

const COPY: [Act; 10] = [
    Act::Pass {
        at: Point {
            tag: CALL_0,
            moment: Moment::Encode,
        },
    },
    Act::Write { by: CALL_0 },
    Act::Other { by: CALL_1 },
    Act::Look { by: CALL_2 },
    Act::Sense { by: CALL_2 },
    Act::Pass {
        at: Point {
            tag: CALL_2,
            moment: Moment::Decode,
        },
    },
    Act::Sense { by: CALL_2 },
    Act::Pass {
        at: Point {
            tag: CALL_2,
            moment: Moment::Decode,
        },
    },
    Act::Move { by: CALL_2 },
    Act::Leave { by: CALL_2 },
];

#[test]
fn a_write_passes_encode_and_a_read_decode_after_each_sense(rt: HostRuntime) -> Result<(), Fail> {
    let Tried { answer, acts } = reads_of(rt.alloc())?;
    let wanted = (ReadReply::Bytes { rung: 0 }, ReadReply::Bytes { rung: 1 });
    assert_eq!(rt; answer, wanted);
    assert_eq!(rt; acts.as_slice(), READS.as_slice());
    Ok(())
}

#[test]
fn a_copy_passes_decode_and_never_encode(rt: HostRuntime) -> Result<(), Fail> {
    let Tried { answer, acts } = copy_of(rt.alloc())?;
    assert_eq!(rt; answer, Some(CopyReply::Moved));
    assert_eq!(rt; acts.as_slice(), COPY.as_slice());
    Ok(())
}

// A whole collection of the loaded superblock, and a read of the row whose page stood in it.
ghost use Rattle.std.specs.Prelude.{◌≡◌, IfOk};
ghost use Rattle.ssd_geo.specs.Shape.{HasSizes};
ghost use Rattle.ssd_histories.specs.HistoryExamples.{small_sizes};
ghost use Rattle.chan_calls.specs.Workers.{MayCall};
ghost use Rattle.loaded_tests.specs.LoadedWorker.{MayCollect, loaded_code, loaded_worker};
ghost use Rattle.loaded_tests.specs.LoneCaller.{IsLone};

use crate::loaded_channel::{ENTRIES, NEVER, begun, small_levels, small_shape};
use chan_calls::{Alone, OpenGate, ReadReply, Steps, Worker};
use chan_state::Channel;
use collector::{CollectReply, collect};
use die_model::SimDie;
use ldpc_decode::Lanes;
use qc_matrix::Code;
use ssd_geo::{Entry, Kind, Place, Row, Shape, Slot, StepStop, Tag};
use std::alloc::Global;
use std::test::Fail;
use victim::{Greedy, Policy};

// The collect, and the read after it.
const COLLECT: Tag = Tag { actor: 0, call: 0 };

const READ: Tag = Tag { actor: 0, call: 1 };

// The data of the page that was live in the loaded superblock.
const DATA: [u8; 8] = [17, 34, 51, 68, 85, 102, 119, 136];

// The code of the drive.
fn small_code(alloc: Global) -> Result<Code, Fail>
    ensures { IfOk result (λ code. code ≡ loaded_code) }
{
    Ok(Code::read(alloc, &ENTRIES, 3, 6, 64)?)
}

// What whole calls of the drive need.
fn small_worker(alloc: Global, shape: Shape) -> Result<Worker, Fail>
    requires { HasSizes shape small_sizes }
    ensures { IfOk result (λ worker. worker ≡ loaded_worker shape) }
{
    let code = small_code(alloc)?;
    let levels = small_levels(alloc)?;
    let worker = Worker::new(alloc, shape, 1, code, 8, Lanes::Four, levels, 10)?;
    Ok(worker)
}

fn collected<S: Steps>(worker: &mut Worker, steps: &mut S) -> Result<CollectReply, StepStop>
    requires lone { IsLone (S.view steps.old) }
    requires may { MayCall worker.old (S.view steps.old) (S.stands steps.old) }
    ensures lone { IsLone (S.view steps.new) }
    ensures may { MayCall worker.new (S.view steps.new) (S.stands steps.new) }
{
    collect(worker, steps, &OpenGate, COLLECT)
}

// Reads row 0.
fn has_read<S: Steps>(worker: &mut Worker, steps: &mut S) -> Result<ReadReply, StepStop>
    requires lone { IsLone (S.view steps.old) }
    requires may { MayCall worker.old (S.view steps.old) (S.stands steps.old) }
{
    worker.read(steps, &OpenGate, READ, 0)
}

// Makes a collection, and reads row 0.
fn called(
    worker: &mut Worker,
    channel: &mut Channel<SimDie, Greedy>,
) -> Result<(CollectReply, ReadReply), StepStop>
    requires { MayCollect worker.old channel.old.kept (⟦<Greedy as Policy>⟧.told channel.old.policy) }
{
    let mut steps = Alone::new(channel);
    let collect = collected(worker, &mut steps)?;
    let read = has_read(worker, &mut steps)?;
    Ok((collect, read))
}

// How the two calls were answered where the block of die 2 is weak from so many erases on, and what they did.
#[derive(Drop)]
struct Outcome {
    replies: (CollectReply, ReadReply),
    worker: Worker,
    channel: Channel<SimDie, Greedy>,
}

fn called_on(alloc: Global, from: u32) -> Result<Outcome, Fail> {
    let shape = small_shape()?;
    let mut worker = small_worker(alloc, shape)?;
    let mut channel = begun(alloc, shape, [NEVER, NEVER, from], Greedy::new())?;
    let replies = called(&mut worker, &mut channel)?;
    Ok(Outcome {
        replies,
        worker,
        channel,
    })
}

fn slot(sb: u16, index: u32) -> Slot {
    Slot { sb, index }
}

// What the collect and the read add, where the erase ended so.
fn entries(erase: Kind) -> [Entry; 9] {
    let was = Row::Page {
        slot: slot(0, 1),
        serial: 9,
    };
    let is = Row::Page {
        slot: slot(1, 0),
        serial: 9,
    };
    [
        by(COLLECT, Kind::Pick { sb: 0 }),
        by(COLLECT, look_of(was, true)),
        by(COLLECT, sense_of(1, 2, 0)),
        by(
            COLLECT,
            Kind::Move {
                at: 1,
                slot: slot(1, 0),
            },
        ),
        by(COLLECT, Kind::Leave { at: 1 }),
        by(COLLECT, erase),
        by(READ, look_of(is, false)),
        by(READ, sense_of(6, 0, 1)),
        by(READ, Kind::Leave { at: 6 }),
    ]
}

fn by(tag: Tag, kind: Kind) -> Entry {
    Entry { tag, kind }
}

fn look_of(found: Row, closed: bool) -> Kind {
    Kind::Look {
        row: 0,
        found,
        closed,
    }
}

// A sense of page 0 of a block at the first read level.
fn sense_of(at: u32, die: u8, sb: u16) -> Kind {
    let place = Place { die, sb, page: 0 };
    Kind::Sense {
        at,
        place,
        level: 0,
    }
}

// Superblock 0 was erased seven times, so the erase answers FAIL where the block is weak from the seventh erase on. The page
// that was live in it is read from the slot that it was copied to, all the same.
#[test]
fn a_collect_tells_of_a_superblock_that_was_retired(rt: HostRuntime) -> Result<(), Fail> {
    let retired = Kind::BadErase {
        sb: 0,
        die: 2,
        fault: false,
    };
    let table = [
        (7, CollectReply::Retired { sb: 0 }, retired),
        (8, CollectReply::Collected { sb: 0 }, Kind::Erase { sb: 0 }),
    ];
    for (from, want, erase) in table {
        let outcome = called_on(rt.alloc(), from)?;
        assert_eq!(rt;
            outcome.replies,
            (want, ReadReply::Bytes { rung: 0 }),
            "from {from}"
        );
        assert_eq!(rt; outcome.worker.bytes(), DATA.as_slice(), "from {from}");
        assert_eq!(rt;
            outcome.channel.history(),
            entries(erase).as_slice(),
            "from {from}"
        );
    }
    Ok(())
}

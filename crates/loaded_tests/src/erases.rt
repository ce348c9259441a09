// The steps of a collection of the loaded superblock, and what the channel does after it.
ghost use Rattle.ssd_geo.specs.Shape.{HasSizes};
ghost use Rattle.ssd_histories.specs.HistoryExamples.{small_sizes};
ghost use Rattle.loaded_tests.specs.LoneCaller.{IsLone};

use crate::loaded_channel::{NEVER, begun, small_shape};
use chan_calls::{Alone, Steps};
use chan_state::{Channel, EraseAnswer, Note, PickAnswer, WriteAnswer};
use die_model::SimDie;
use ssd_geo::{Entry, Kind, SbInfo, Slot, StepStop, Tag};
use std::test::Fail;
use victim::Policy;

fn tag(call: u32) -> Tag {
    Tag { actor: 0, call }
}

// A policy that answers superblock 2 once it was told of an erase, and superblock 1 until then.
#[derive(Drop)]
struct Listener {
    told: bool,
}

impl Policy for Listener {
    ghost use Rattle.std.specs.Prelude.{None};

    ghost told = { λ policy. None };

    fn pick(&mut self, _table: &[SbInfo]) -> u16 {
        if self.told { 2 } else { 1 }
    }

    fn erased(&mut self, _sb: u16) {
        self.told = true;
    }
}

fn picked<S: Steps>(steps: &mut S, call: u32) -> Result<PickAnswer, StepStop>
    requires { IsLone (S.view steps.old) }
    ensures { IsLone (S.view steps.new) }
{
    steps.pick(tag(call))
}

fn erased<S: Steps>(steps: &mut S, call: u32, sb: u16) -> Result<EraseAnswer, StepStop>
    requires { IsLone (S.view steps.old) }
    ensures { IsLone (S.view steps.new) }
{
    steps.erase_if(tag(call), sb)
}

fn noted<S: Steps>(steps: &mut S, call: u32) -> Result<Note, StepStop>
    requires { IsLone (S.view steps.old) }
    ensures { IsLone (S.view steps.new) }
{
    steps.note(tag(call))
}

// Writes a word of row 0.
fn written<S: Steps>(steps: &mut S, call: u32) -> Result<WriteAnswer, StepStop>
    requires { IsLone (S.view steps.old) }
    ensures { IsLone (S.view steps.new) }
{
    steps.write(tag(call), 0, &[0x0f; 48])
}

// Empties row 0.
fn trimmed<S: Steps>(steps: &mut S, call: u32) -> Result<(), StepStop>
    requires { IsLone (S.view steps.old) }
    ensures { IsLone (S.view steps.new) }
{
    steps.trim(tag(call), 0)
}

fn slot(sb: u16, index: u32) -> Slot {
    Slot { sb, index }
}

// Fills superblocks 1 and 2 with pages of row 0, and tells whether each write found its slot.
fn filled<S: Steps>(steps: &mut S) -> Result<bool, StepStop>
    requires { IsLone (S.view steps.old) }
    ensures { IsLone (S.view steps.new) }
{
    for write in 0..8 {
        let slot = slot((1 + write / 4) as u16, write % 4);
        if written(steps, 3 + write)? != (WriteAnswer::Written { slot }) {
            return Ok(false);
        }
    }
    Ok(true)
}

// What an erase of the loaded superblock answers and adds, how many superblocks are free then, and which one the listener picks
// next.
#[derive(Clone, Copy)]
struct Ended {
    answer: EraseAnswer,
    kind: Kind,
    free: u16,
    next: u16,
}

fn failed(die: u8) -> Ended {
    let kind = Kind::BadErase {
        sb: 0,
        die,
        fault: false,
    };
    Ended {
        answer: EraseAnswer::FailedErase { die },
        kind,
        free: 3,
        next: 1,
    }
}

fn passed() -> Ended {
    Ended {
        answer: EraseAnswer::Erased,
        kind: Kind::Erase { sb: 0 },
        free: 4,
        next: 2,
    }
}

fn entry(call: u32, kind: Kind) -> Entry {
    Entry {
        tag: tag(call),
        kind,
    }
}

// What the steps of a collection of the loaded superblock answer, and what comes after it.
#[derive(Clone, Copy, Debug, PartialEq, Eq)]
struct Seen {
    picked: PickAnswer,
    live: EraseAnswer,
    erased: EraseAnswer,
    again: EraseAnswer,
    note: Note,
    filled: bool,
    next: PickAnswer,
}

fn seen_by<S: Steps>(steps: &mut S) -> Result<Seen, StepStop>
    requires { IsLone (S.view steps.old) }
{
    let picked_first = picked(steps, 0)?;
    let live = erased(steps, 0, 0)?;
    trimmed(steps, 1)?;
    let erased_then = erased(steps, 0, 0)?;
    let again = erased(steps, 0, 0)?;
    let note = noted(steps, 2)?;
    let filled = filled(steps)?;
    let next = picked(steps, 11)?;
    Ok(Seen {
        picked: picked_first,
        live,
        erased: erased_then,
        again,
        note,
        filled,
        next,
    })
}

fn seen_on(channel: &mut Channel<SimDie, Listener>) -> Result<Seen, StepStop>
    requires { HasSizes channel.old.kept.shape small_sizes }
{
    let mut steps = Alone::new(channel);
    seen_by(&mut steps)
}

// What is to be seen where the erase ended so.
fn due(ended: &Ended) -> Seen {
    Seen {
        picked: PickAnswer::Picked { sb: 0 },
        live: EraseAnswer::Live { count: 1 },
        erased: ended.answer,
        again: EraseAnswer::NotVictim,
        note: Note {
            free: ended.free,
            victim: None,
            live: 0,
            pins: 0,
            garbage: 0,
        },
        filled: true,
        next: PickAnswer::Picked { sb: ended.next },
    }
}

// The loaded superblock was erased seven times, and is erased once its live page is trimmed. A block is weak from its count on,
// and blocks are erased in the order of their dies, up to the first that answers FAIL. The superblock is bad then, and the
// policy isn't told of it.
#[test]
fn an_erase_of_a_weak_block_retires_the_victim(rt: HostRuntime) -> Result<(), Fail> {
    let table = [
        ([NEVER, NEVER, NEVER], passed()),
        ([8, 8, 8], passed()),
        ([7, NEVER, NEVER], failed(0)),
        ([NEVER, 7, NEVER], failed(1)),
        ([NEVER, NEVER, 0], failed(2)),
        ([8, NEVER, 7], failed(2)),
        ([NEVER, 6, 7], failed(1)),
    ];
    for (from, want) in table {
        let shape = small_shape()?;
        let mut channel = begun(rt.alloc(), shape, from, Listener { told: false })?;
        assert_eq!(rt; seen_on(&mut channel), Ok(due(&want)), "from {from:?}");
        let history = channel.history();
        let first = [
            entry(0, Kind::Pick { sb: 0 }),
            entry(1, Kind::Trim { row: 0 }),
            entry(0, want.kind),
        ];
        assert_eq!(rt; history.get(..3), Some(first.as_slice()), "from {from:?}");
        assert_eq!(rt; history.len(), 13, "from {from:?}");
    }
    Ok(())
}

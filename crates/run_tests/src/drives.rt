// Runs over a small drive.
ghost use Rattle.std.specs.Prelude.{IfOk, map};
ghost use Rattle.ssd_top.specs.HandedBack.{AreHandedIn};

use crate::tried_die::TriedDie;
use die_model::{ListedFaults, SimDie};
use onfi_cmd::Die;
use ssd_geo::Word;
use ssd_io::{MemSink, MemSource};
use ssd_top::{Status, run};
use std::alloc::{AllocError, Global};
use std::test::Fail;
use victim::{Greedy, Policy};

/// The image of a small drive, byte by byte: one channel with three dies.
pub(crate) const IMAGE: [u8; 93] = [
    0x53, 0x53, 0x44, 0x49, 0x4d, 0x47, 0x30, 0x31, 0x01, 0x03, 0x04, 0x00, 0x02, 0x00, 0x40, 0x00,
    0x03, 0x06, 0x02, 0x08, 0x08, 0x00, 0x00, 0x00, 0x08, 0x00, 0x00, 0x00, 0x01, 0x00, 0x00, 0x00,
    0x00, 0x00, 0x00, 0x00, 0x00, 0x00, 0x00, 0x00, 0x9c, 0xff, 0x64, 0x00, 0x00, 0x00, 0x0a, 0x00,
    0x00, 0x00, 0xc4, 0xff, 0x00, 0x00, 0x01, 0x00, 0xff, 0xff, 0x01, 0x00, 0x00, 0x00, 0xff, 0xff,
    0x05, 0x00, 0xff, 0xff, 0x07, 0x00, 0x00, 0x00, 0x00, 0x00, 0x00, 0x00, 0xff, 0xff, 0x0b, 0x00,
    0x03, 0x00, 0x01, 0x00, 0xff, 0xff, 0x00, 0x00, 0x00, 0x00, 0x00, 0x00, 0x00,
];

/// The image as it is.
pub(crate) const SAME: (usize, u8) = (0, b'S');

/// The calls that a die fails, counted from 1: of its runs, and of those that load it.
#[derive(Clone, Copy)]
pub(crate) struct Faults {
    pub(crate) die: u8,
    pub(crate) runs: &'static [u64],
    pub(crate) loads: &'static [u64],
}

// How many dies and policies the top call takes.
const DIES: u8 = 64;

const CHANNELS: u8 = 8;

// The calls that a die fails by a list: none where it isn't named.
fn faults_of(faults: &[Faults], die: u8) -> Faults {
    for named in faults {
        if named.die == die {
            return *named;
        }
    }
    Faults {
        die,
        runs: &[],
        loads: &[],
    }
}

// Simulated dies that aren't mounted yet, which fail at these calls.
fn dies_with(alloc: Global, faults: &[Faults]) -> Result<Vec<TriedDie>, AllocError>
    ensures { IfOk result (λ dies. AreHandedIn (map ⟦<TriedDie as Die>⟧.state dies.items)) }
{
    let mut dies = Vec::new(alloc);
    for die in 0..DIES {
        let listed = faults_of(faults, die);
        let runs = Vec::from_slice(alloc, listed.runs)?;
        let loads = Vec::from_slice(alloc, listed.loads)?;
        dies.push(TriedDie {
            inner: ListedFaults::new(SimDie::new(), runs, loads),
        })?;
    }
    Ok(dies)
}

// The words of a line, with single spaces between.
fn words_of(alloc: Global, line: &str) -> Result<Vec<Word>, AllocError> {
    let mut words = Vec::new(alloc);
    for text in line.split(' ') {
        words.push(Word::new(String::from_str(alloc, text)?))?;
    }
    Ok(words)
}

/// The status and the output of a command over these bytes, whose source and sink fail at the listed calls, and whose dies do.
pub(crate) fn outcome_over(
    alloc: Global,
    line: &str,
    bytes: Vec<u8>,
    reads: u64,
    writes: u64,
    room: usize,
    faults: &[Faults],
) -> Result<(Status, MemSink), Fail> {
    let mut input = MemSource::new(bytes, vec![in alloc; reads]?);
    let mut output = MemSink::new(
        alloc,
        vec![in alloc; writes, writes.saturating_add(1)]?,
        room,
    )
    .map_err(|_| "no memory")?;
    let words = words_of(alloc, line)?;
    let dies = dies_with(alloc, faults)?;
    let mut policies: Vec<Box<dyn Policy + Send>> = Vec::with_capacity(alloc, CHANNELS as usize)?;
    for _ in 0..CHANNELS {
        policies.push_reserved(Box::new(alloc, Greedy::new())?);
    }
    let ended = run(alloc, &words, &mut input, &mut output, dies, policies);
    if ended.dies.len() != DIES as usize {
        return Err("a die is missing".into());
    }
    Ok((ended.status, output))
}

/// The same over the image, with one byte of it changed, and this trace, with dies that don't fail.
pub(crate) fn outcome(
    alloc: Global,
    line: &str,
    change: (usize, u8),
    trace: &[u8],
    reads: u64,
    writes: u64,
    room: usize,
) -> Result<(Status, MemSink), Fail> {
    let mut bytes = Vec::from_slice(alloc, &IMAGE)?;
    if let Some(byte) = bytes.get_mut(change.0) {
        *byte = change.1;
    }
    bytes.extend_from_slice(trace)?;
    outcome_over(alloc, line, bytes, reads, writes, room, &[])
}

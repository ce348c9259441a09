// Runs over a small drive.
ghost use Rattle.std.specs.Prelude.{◌≡◌, IfOk, length, map};
ghost use Rattle.ssd_top.specs.HandedBack.{AreHandedIn, most_channels};

use crate::policies::Always;
use die_model::SimDie;
use onfi_cmd::Die;
use ssd_geo::Word;
use ssd_io::{MemSink, MemSource};
use ssd_top::{Status, run};
use std::alloc::{AllocError, Global};
use std::test::Fail;
use victim::{Greedy, Policy};

// The head of the image of a small drive, up to its weak blocks: one channel with three dies, each of four blocks of two pages,
// and eight rows of eight data bytes.
const HEAD: [u8; 88] = [
    0x53, 0x53, 0x44, 0x49, 0x4d, 0x47, 0x30, 0x31, 0x01, 0x03, 0x04, 0x00, 0x02, 0x00, 0x40, 0x00,
    0x03, 0x06, 0x02, 0x08, 0x08, 0x00, 0x00, 0x00, 0x08, 0x00, 0x00, 0x00, 0x01, 0x00, 0x00, 0x00,
    0x00, 0x00, 0x00, 0x00, 0x00, 0x00, 0x00, 0x00, 0x9c, 0xff, 0x64, 0x00, 0x00, 0x00, 0x0a, 0x00,
    0x00, 0x00, 0xc4, 0xff, 0x00, 0x00, 0x01, 0x00, 0xff, 0xff, 0x01, 0x00, 0x00, 0x00, 0xff, 0xff,
    0x05, 0x00, 0xff, 0xff, 0x07, 0x00, 0x00, 0x00, 0x00, 0x00, 0x00, 0x00, 0xff, 0xff, 0x0b, 0x00,
    0x03, 0x00, 0x01, 0x00, 0xff, 0xff, 0x00, 0x00,
];

// No factory bad superblock, and no contents.
const TAIL: [u8; 3] = [0, 0, 0];

/// No weak block.
pub(crate) const SOUND: &[u8] = &[0, 0];

// How many dies and policies the top call takes.
const DIES: u8 = 64;

const CHANNELS: u8 = 8;

// Simulated dies that aren't mounted yet.
fn blank_dies(alloc: Global) -> Result<Vec<SimDie>, AllocError>
    ensures { IfOk result (λ dies. AreHandedIn (map ⟦<SimDie as Die>⟧.state dies.items)) }
{
    let mut dies = Vec::with_capacity(alloc, DIES as usize)?;
    for _ in 0..DIES {
        dies.push(SimDie::new())?;
    }
    Ok(dies)
}

// The status and the output of a run over the drive with these weak blocks, this trace and these policies.
fn served(
    alloc: Global,
    weak: &[u8],
    trace: &[u8],
    policies: Vec<Box<dyn Policy + Send>>,
) -> Result<(Status, MemSink), Fail>
    requires { length policies.items ≡ most_channels }
{
    let mut bytes = Vec::from_slice(alloc, &HEAD)?;
    bytes.extend_from_slice(weak)?;
    bytes.extend_from_slice(&TAIL)?;
    bytes.extend_from_slice(trace)?;
    let mut input = MemSource::new(bytes, Vec::new(alloc));
    let mut output = MemSink::new(alloc, Vec::new(alloc), 4096).map_err(|_| "no memory")?;
    let words = vec![in alloc; Word::new(String::from_str(alloc, "run")?)]?;
    let dies = blank_dies(alloc)?;
    let ended = run(alloc, &words, &mut input, &mut output, dies, policies);
    Ok((ended.status, output))
}

/// The status and the output of a run over the drive with these weak blocks and this trace. Its policies pick the superblock
/// with the most garbage.
pub(crate) fn outcome(alloc: Global, weak: &[u8], trace: &[u8]) -> Result<(Status, MemSink), Fail> {
    let mut policies: Vec<Box<dyn Policy + Send>> = Vec::with_capacity(alloc, CHANNELS as usize)?;
    for _ in 0..CHANNELS {
        policies.push_reserved(Box::new(alloc, Greedy::new())?);
    }
    served(alloc, weak, trace, policies)
}

/// The same over a drive without weak blocks, whose policies always answer this superblock.
pub(crate) fn outcome_for(alloc: Global, trace: &[u8], sb: u16) -> Result<(Status, MemSink), Fail> {
    let mut policies: Vec<Box<dyn Policy + Send>> = Vec::with_capacity(alloc, CHANNELS as usize)?;
    for _ in 0..CHANNELS {
        policies.push_reserved(Box::new(alloc, Always { sb })?);
    }
    served(alloc, SOUND, trace, policies)
}

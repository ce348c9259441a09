// A worker and the channel of a small drive that is blank and without noise.
ghost use Rattle.std.specs.Prelude.{◌≡◌, [], ◌∷◌, IfOk, map, vec_len};
ghost use Rattle.die_model.specs.SimState.{state_of};
ghost use Rattle.drive_dies.specs.Mounting.{AllTell, AreReady};
ghost use Rattle.ssd_formats.specs.ImageExamples.{small_head};
ghost use Rattle.ssd_formats.specs.ImageHead.{head_of, matrix_of_head};
ghost use Rattle.call_tests.specs.SmallCalls.{IsSmallWorker, StandsBlank};

use blank_drive::{begin_channels, mount_drive};
use chan_calls::Worker;
use chan_state::Channel;
use die_model::SimDie;
use ldpc_decode::Lanes;
use qc_matrix::Code;
use ssd_geo::{CellLaw, ImageHead, Items, Shape};
use std::alloc::{AllocError, Global};
use std::test::Fail;
use victim::{Greedy, Policy};

const ENTRIES: [i16; 18] = [0, 1, -1, 1, 0, -1, 5, -1, 7, 0, 0, 0, -1, 11, 3, 1, -1, 0];

/// The head of the image of a drive with one channel, three dies, four superblocks and eight rows.
pub(crate) fn small_head(alloc: Global) -> Result<ImageHead, Fail>
    ensures { IfOk result (λ head. head_of head ≡ small_head) }
{
    let shape = Shape::new(1, 1, 3, 4, 2, 64, 3, 6, 8, 8)?;
    let read_levels = small_levels(alloc)?;
    let entries = Items::new(Vec::from_slice(alloc, &ENTRIES)?);
    Ok(ImageHead {
        shape,
        read_levels,
        iterations: 8,
        law: CellLaw {
            erased: -100,
            programmed: 100,
            spread: 0,
            seed: 1,
        },
        step: 10,
        session: 0,
        entries,
        weak: Items::new(Vec::new(alloc)),
        bad: Items::new(Vec::new(alloc)),
        full: false,
        place: 93,
    })
}

// The read levels of the drive.
fn small_levels(alloc: Global) -> Result<Items<i16>, AllocError>
    ensures { IfOk result (λ levels. levels ≡ small_head.read_levels) }
{
    Ok(Items::new(vec![in alloc; 0, -60]?))
}

// The code of the drive.
fn small_code(alloc: Global) -> Result<Code, Fail>
    ensures { IfOk result (λ code. code ≡ matrix_of_head small_head) }
{
    Ok(Code::read(alloc, &ENTRIES, 3, 6, 64)?)
}

/// The worker of the drive.
pub(crate) fn small_worker(alloc: Global, head: &ImageHead) -> Result<Worker, Fail>
    requires { head_of head.now ≡ small_head }
    ensures { IfOk result IsSmallWorker }
{
    let code = small_code(alloc)?;
    let levels = small_levels(alloc)?;
    let worker = Worker::new(alloc, head.shape, 0, code, 8, Lanes::Four, levels, 10)?;
    Ok(worker)
}

// A list of three dies.
fn three_of(
    alloc: Global,
    zero: SimDie,
    one: SimDie,
    two: SimDie,
) -> Result<Vec<SimDie>, AllocError>
    ensures count { IfOk result (λ dies. vec_len dies ≡ 3) }
    ensures items { IfOk result (λ dies. dies.items ≡ zero ∷ one ∷ two ∷ []) }
{
    let mut dies = Vec::new(alloc);
    dies.push(zero)?;
    dies.push(one)?;
    dies.push(two)?;
    Ok(dies)
}

// Three dies that aren't mounted yet.
fn three_dies(alloc: Global) -> Result<Vec<SimDie>, AllocError>
    ensures count { IfOk result (λ dies. vec_len dies ≡ 3) }
    ensures tell { IfOk result (λ dies. AllTell (map state_of dies.items)) }
{
    let zero = SimDie::new();
    let one = SimDie::new();
    let two = SimDie::new();
    let dies = three_of(alloc, zero, one, two)?;
    Ok(dies)
}

// The dies of the drive.
fn mounted(alloc: Global, head: &ImageHead) -> Result<Vec<SimDie>, Fail>
    requires { head_of head.now ≡ small_head }
    ensures { IfOk result (λ dies. AreReady head.now (map state_of dies.items)) }
{
    let mut dies = three_dies(alloc)?;
    match mount_drive(alloc, head, &mut dies) {
        Ok(()) => Ok(dies),
        Err(_) => Err("not mounted".into()),
    }
}

// One policy.
fn one_policy(alloc: Global) -> Result<Vec<Greedy>, AllocError>
    ensures { IfOk result (λ policies. vec_len policies ≡ 1) }
{
    Ok(vec![in alloc; Greedy::new()]?)
}

/// The channel of the drive, with no entry.
pub(crate) fn small_channel(
    alloc: Global,
    head: &ImageHead,
) -> Result<Channel<SimDie, Greedy>, Fail>
    requires { head_of head.now ≡ small_head }
    ensures { IfOk result (λ channel. StandsBlank channel.kept (⟦<Greedy as Policy>⟧.told channel.policy)) }
{
    let mut dies = mounted(alloc, head)?;
    let policies = one_policy(alloc)?;
    let mut channels = begin_channels(alloc, head, &mut dies, policies, 4096)?;
    Ok(channels.remove(0))
}

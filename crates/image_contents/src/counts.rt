// The numbers of used slots and of programmed pages.
ghost use Rattle.std.specs.Prelude.{◌≡◌, ◌+◌, ◌*◌, ◌^◌, ◌<◌, ◌≤◌, [], All, IfOk, IsTrue, OnOk, length};
ghost use Rattle.ssd_formats.specs.ImageContents.{are_programmed_counts, is_programmed_count, programmed_fields, slots_of_sizes};
ghost use Rattle.ssd_geo.specs.Shape.{sizes_of};
ghost use Rattle.ssd_geo.specs.Superblock.{due_pages, slots_of};
ghost use Rattle.ssd_histories.specs.Blocks.{has_due_used};
ghost use Rattle.image_file.specs.Gives.{Reads};
ghost use Rattle.image_contents.specs.Parts.{count_field, used_field};

use image_file::{ImageFault, ReadStop, read_u16, read_u32};
use ssd_geo::{BlockBase, SbState, Shape};
use ssd_io::Source;

// Whether a superblock of so many data slots has as many used as its state asks.
fn is_due_used(slots: u32, state: SbState, used: u32) -> bool
    ensures { result ≡ has_due_used slots state used }
{
    match state {
        SbState::Free => used == 0,
        SbState::Frontier => 1 <= used && used < slots,
        SbState::Sealed => used == slots,
        SbState::Bad => used <= slots,
        SbState::Victim => used == slots,
    }
}

/// How many data slots of a superblock in a state are used.
#[tactic(auto, using(crate::proofs::Numbers::or_passes, crate::proofs::Numbers::or_fails, crate::proofs::Numbers::or_lacks))]
pub fn read_used<S: Source>(
    input: &mut S,
    place: u64,
    shape: &Shape,
    state: SbState,
) -> Result<u32, ReadStop<ImageFault>>
    requires { place < 2 ^ 63 }
    ensures read { Reads (λ used. used) (S.left input.old) (S.left input.new) (S.faults input.old) (S.faults input.new)
        place (place + 4) result (used_field (sizes_of shape.now) state) }
    ensures due { IfOk result (λ used. IsTrue (has_due_used (slots_of_sizes (sizes_of shape.now)) state used)) }
{
    let used = read_u32(input, place)?;
    if is_due_used(shape.slots(), state, used) {
        return Ok(used);
    }
    Err(ReadStop::Fault {
        at: place,
        fault: ImageFault::Count,
    })
}

// How many pages of a die's block are due where so many slots of its superblock are used: one for each closed stripe, and
// one of the open stripe where the die has one of the slots used there.
fn due_of_die(dies: u8, sb: u16, used: u32, die: u8) -> u32
    requires dies { 3 ≤ dies }
    requires die { die < dies }
    ensures { result ≡ due_pages dies sb used die }
{
    let data = dies as u32 - 1;
    let closed = used / data;
    let parity = (sb as u32 + closed) % dies as u32;
    let die = die as u32;
    if die == parity {
        return closed;
    }
    let number = if die < parity { die } else { die - 1 };
    if number < used % data {
        return closed + 1;
    }
    closed
}

// Whether a die may have so many programmed pages of a superblock.
fn is_count(shape: &Shape, block: &BlockBase, sb: u16, die: u8, count: u16) -> bool
    requires { die < shape.now.dies }
    ensures { result ≡ is_programmed_count (sizes_of shape.now) block.now.state sb block.now.used die count }
{
    let due = due_of_die(shape.dies, sb, block.used, die);
    if block.state == SbState::Bad {
        return due <= count as u32 && count <= shape.pages;
    }
    count as u32 == due
}

// How many pages of a die's block are programmed.
#[tactic(auto, using(crate::proofs::Numbers::or_passes, crate::proofs::Numbers::or_fails, crate::proofs::Numbers::or_lacks))]
fn read_count<S: Source>(
    input: &mut S,
    place: u64,
    shape: &Shape,
    block: &BlockBase,
    sb: u16,
    die: u8,
) -> Result<u16, ReadStop<ImageFault>>
    requires place { place < 2 ^ 63 }
    requires die { die < shape.now.dies }
    ensures read { Reads (λ count. count) (S.left input.old) (S.left input.new) (S.faults input.old) (S.faults input.new)
        place (place + 2) result (count_field (sizes_of shape.now) block.now sb die) }
    ensures count { IfOk result (λ count.
        IsTrue (is_programmed_count (sizes_of shape.now) block.now.state sb block.now.used die count)) }
{
    let count = read_u16(input, place)?;
    if is_count(shape, block, sb, die, count) {
        return Ok(count);
    }
    Err(ReadStop::Fault {
        at: place,
        fault: ImageFault::Count,
    })
}

/// How many pages of each die's block are programmed.
pub fn read_counts<S: Source>(
    input: &mut S,
    place: u64,
    shape: &Shape,
    block: &BlockBase,
    sb: u16,
    counts: &mut [u16],
) -> Result<(), ReadStop<ImageFault>>
    requires place { place < 2 ^ 62 + 2 ^ 61 }
    requires used { block.now.used ≤ slots_of shape.now.pages shape.now.dies }
    requires counts { length counts.old ≡ shape.now.dies }
    ensures read { Reads (λ _. counts.new) (S.left input.old) (S.left input.new) (S.faults input.old) (S.faults input.new)
        place (place + 2 * shape.now.dies) result
        (programmed_fields (sizes_of shape.now) block.now.state sb block.now.used shape.now.dies []) }
    ensures counts { OnOk result (IsTrue
        (are_programmed_counts (sizes_of shape.now) block.now.state sb block.now.used [] counts.new)) }
    ensures length { length counts.new ≡ length counts.old }
    ensures few { OnOk result (All (λ count. count ≤ shape.now.pages) counts.new) }
{
    for die in 0..shape.dies {
        match read_count(input, place + 2 * die as u64, shape, block, sb, die) {
            Ok(count) => counts[die as usize] = count,
            Err(stop) => return Err(stop),
        }
    }
    Ok(())
}

// One superblock of a channel.
ghost use Rattle.std.specs.Prelude.{◌≡◌, ◌+◌, ◌*◌, ◌^◌, ◌<◌, ◌≤◌, [], All, IfOk, OnOk, length, map, vec_len};
ghost use Rattle.ssd_formats.specs.ImageContents.{SavedBlock};
ghost use Rattle.ssd_formats.specs.ImageHead.{IsHead, head_of};
ghost use Rattle.ssd_geo.specs.Coding.{word_bytes_in};
ghost use Rattle.ssd_geo.specs.Limits.{page_cells_of};
ghost use Rattle.ssd_geo.specs.Shape.{sizes_of};
ghost use Rattle.image_file.specs.Gives.{Reads};
ghost use Rattle.image_contents.specs.DiesLoaded.{BecomeLoaded, IsDieIn, block_of};
ghost use Rattle.image_contents.specs.Loads.{Loads};
ghost use Rattle.image_contents.specs.Parts.{IsFront, block_after, front_after, front_of};
ghost use Rattle.image_contents.specs.Taken.{TakesBlock};

use crate::counts::{read_counts, read_used};
use crate::pages::load_blocks;
use crate::states::read_state;
use crate::sum::read_sum;
use crate::work::PageWork;
use image_file::{ImageFault, ReadStop, u32_within};
use onfi_cmd::Die;
use ssd_geo::{BlockBase, ImageHead};
use ssd_io::Source;
use std::alloc::Global;

// What stands before the pages of the superblock after those before: its base, and how many pages each die has.
#[tactic(auto, using(crate::proofs::CountLists::used_fits), unfolding(crate::specs::Parts::front_after))]
fn read_front<S: Source>(
    input: &mut S,
    place: u64,
    head: &ImageHead,
    channel: u8,
    before: &[BlockBase],
    counts: &mut [u16],
) -> Result<BlockBase, ReadStop<ImageFault>>
    requires place { place < 2 ^ 62 + 2 ^ 60 }
    requires before { length before.now < 256 }
    requires counts { length counts.old ≡ head.now.shape.dies }
    ensures read { Reads (λ block. front_of block counts.new) (S.left input.old) (S.left input.new) (S.faults input.old)
        (S.faults input.new) place (place + 9 + 2 * head.now.shape.dies) result
        (front_after (head_of head.now) channel before.now) }
    ensures front { IfOk result (λ block. IsFront (head_of head.now) channel before.now block counts.new) }
    ensures few { OnOk result (All (λ count. count ≤ head.now.shape.pages) counts.new) }
    ensures length { length counts.new ≡ length counts.old }
{
    let state = read_state(input, place, head, channel, before)?;
    let erases = u32_within(input, place + 1, 0, 1 << 31)?;
    let used = read_used(input, place + 5, &head.shape, state)?;
    let block = BlockBase {
        state,
        erases,
        used,
    };
    read_counts(
        input,
        place + 9,
        &head.shape,
        &block,
        before.len() as u16,
        counts,
    )?;
    Ok(block)
}

/// The superblock after those before. Its pages are loaded into the dies, and the sum of its open stripe, if it has one,
/// goes to `sum`.
pub fn read_block<S: Source, D: Die>(
    alloc: Global,
    input: &mut S,
    place: &mut u64,
    head: &ImageHead,
    channel: u8,
    before: &[BlockBase],
    dies: &mut [D],
    work: &mut PageWork,
    sum: &mut [u8],
) -> Result<BlockBase, ReadStop<ImageFault>>
    requires head { IsHead (head_of head.now) }
    requires channel { channel < head.now.shape.channels }
    requires place { place.old < 2 ^ 62 + 2 ^ 58 }
    requires before { length before.now < head.now.shape.superblocks }
    requires count { length dies.old ≡ head.now.shape.dies }
    requires dies { All (IsDieIn head.now.shape) (map D.state dies.old) }
    requires blank { All (λ die. (block_of (length before.now) die).pages ≡ []) (map D.state dies.old) }
    requires cells { vec_len work.old.levels ≡ page_cells_of (sizes_of head.now.shape) }
    requires sum { length sum.old ≡ word_bytes_in head.now.shape }
    ensures read { Loads
        (λ block (saved : SavedBlock). (saved.block ≡ block) × TakesBlock (head_of head.now) channel before.now saved
        (map D.state dies.old) (map D.state dies.new) sum.old sum.new)
        (S.left input.old) (S.left input.new) (S.faults input.old) (S.faults input.new) place.old place.new result
        (block_after (head_of head.now) channel before.now) }
    ensures near { OnOk result ((place.old ≤ place.new) × (place.new ≤ place.old + 2 ^ 32)) }
    ensures loaded { BecomeLoaded (channel * head.now.shape.dies) (map D.state dies.old) (map D.state dies.new) result }
    ensures cells { vec_len work.new.levels ≡ vec_len work.old.levels }
    ensures length { length sum.new ≡ length sum.old }
{
    let mut buffer = [0; 8];
    let counts = &mut buffer[..head.shape.dies as usize];
    let at = *place;
    let block = match read_front(input, at, head, channel, before, counts) {
        Ok(block) => block,
        Err(stop) => return Err(stop),
    };
    *place = at + 9 + 2 * head.shape.dies as u64;
    let first = channel * head.shape.dies;
    let sb = before.len() as u16;
    match load_blocks(
        input,
        place,
        &head.shape,
        dies,
        first,
        sb,
        block.erases,
        counts,
        work,
    ) {
        Ok(()) => {}
        Err(stop) => return Err(stop),
    }
    match read_sum(alloc, input, place, head, &block, sum) {
        Ok(()) => Ok(block),
        Err(stop) => Err(stop),
    }
}

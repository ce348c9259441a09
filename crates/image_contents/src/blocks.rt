// The superblocks of a channel.
ghost use Rattle.std.specs.Prelude.{◌≡◌, ◌+◌, ◌*◌, ◌^◌, ◌<◌, ◌≤◌, List, [], IfOk, OnOk, length, map, vec_len};
ghost use Rattle.ssd_formats.specs.ImageContents.{SavedBlock, blocks_fields, blocks_of_saved};
ghost use Rattle.ssd_formats.specs.ImageHead.{IsHead, head_of};
ghost use Rattle.ssd_geo.specs.Coding.{word_bytes_in};
ghost use Rattle.ssd_geo.specs.StripeSum.{zero_word};
ghost use Rattle.drive_dies.specs.Mounting.{AreDiesOf};
ghost use Rattle.image_contents.specs.DiesLoaded.{BecomeLoaded};
ghost use Rattle.image_contents.specs.Loads.{Loads};
ghost use Rattle.image_contents.specs.Taken.{AreTaken};

use crate::block::read_block;
use crate::work::PageWork;
use image_file::{ImageFault, ReadStop};
use onfi_cmd::Die;
use ssd_geo::{BlockBase, ImageHead};
use ssd_io::Source;
use std::alloc::Global;

/// All superblocks of a channel. Their pages are loaded into the dies, and the sum of the open stripe, if there is one, goes
/// to `sum`.
pub fn read_blocks<S: Source, D: Die>(
    alloc: Global,
    input: &mut S,
    place: &mut u64,
    head: &ImageHead,
    channel: u8,
    dies: &mut [D],
    sum: &mut [u8],
) -> Result<Vec<BlockBase>, ReadStop<ImageFault>>
    requires head { IsHead (head_of head.now) }
    requires channel { channel < head.now.shape.channels }
    requires place { place.old < 2 ^ 62 }
    requires dies { AreDiesOf head.now channel (map D.state dies.old) }
    requires sum { sum.old ≡ zero_word (word_bytes_in head.now.shape) }
    ensures read { Loads (λ blocks (saved : List SavedBlock). (blocks.items ≡ blocks_of_saved saved)
        × AreTaken (head_of head.now) channel saved (map D.state dies.new) sum.new)
        (S.left input.old) (S.left input.new) (S.faults input.old) (S.faults input.new) place.old place.new result
        (blocks_fields (head_of head.now) channel head.now.shape.superblocks []) }
    ensures near { OnOk result ((place.old ≤ place.new) × (place.new ≤ place.old + 2 ^ 40)) }
    ensures loaded { BecomeLoaded (channel * head.now.shape.dies) (map D.state dies.old) (map D.state dies.new) result }
    ensures all { IfOk result (λ blocks. vec_len blocks ≡ head.now.shape.superblocks) }
{
    let mut work = PageWork::new(alloc, &head.shape).map_err(|_| ReadStop::Memory)?;
    let mut blocks = Vec::new(alloc);
    for _ in 0..head.shape.superblocks {
        match read_block(
            alloc, input, place, head, channel, &blocks, dies, &mut work, sum,
        ) {
            Ok(block) => blocks.push(block).map_err(|_| ReadStop::Memory)?,
            Err(stop) => return Err(stop),
        }
    }
    Ok(blocks)
}

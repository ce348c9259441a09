// The weak and the factory bad blocks of an image, each list behind its number.
ghost use Rattle.std.specs.Prelude.{◌^◌, ◌+◌, ◌<◌, ◌≤◌, IfOk};
ghost use Rattle.ssd_geo.specs.Shape.{sizes_of};
ghost use Rattle.image_file.specs.Gives.{ReadsUpTo};
ghost use Rattle.image_file.specs.Lists.{AreBlocks};
ghost use Rattle.image_file.specs.HeadParts.{block_fields, blocks_of};

use crate::field::read_u16;
use crate::lists::{read_bads, read_weaks};
use crate::stop::{ImageFault, ReadStop};
use ssd_geo::{Shape, Weak};
use ssd_io::Source;
use std::alloc::Global;

/// The two lists.
#[derive(Drop)]
pub struct BlockLists {
    pub weak: Vec<Weak>,
    pub bad: Vec<(u8, u16)>,
    /// The place of what follows.
    pub place: u64,
}

/// The two lists, from a place on.
#[tactic(auto, using(crate::proofs::ListRanges::blocks_are), unfolding(crate::specs::HeadParts::block_fields))]
pub fn read_blocks<S: Source>(
    alloc: Global,
    input: &mut S,
    place: u64,
    shape: &Shape,
) -> Result<BlockLists, ReadStop<ImageFault>>
    requires { place < 2 ^ 59 }
    ensures read { ReadsUpTo blocks_of (λ blocks. blocks.place) (S.left input.old) (S.left input.new) (S.faults input.old) (S.faults input.new)
        place result (block_fields (sizes_of shape.now)) }
    ensures lists { IfOk result (λ blocks. AreBlocks (sizes_of shape.now) blocks.weak.items blocks.bad.items) }
    ensures place { IfOk result (λ blocks. blocks.place ≤ place + 2 ^ 20) }
{
    let weak_count = read_u16(input, place)?;
    let weak = read_weaks(alloc, input, place + 2, shape, weak_count)?;
    let bad_at = place + 2 + 8 * weak_count as u64;
    let bad_count = read_u16(input, bad_at)?;
    let bad = read_bads(alloc, input, bad_at + 2, shape, bad_count)?;
    Ok(BlockLists {
        weak,
        bad,
        place: bad_at + 2 + 4 * bad_count as u64,
    })
}

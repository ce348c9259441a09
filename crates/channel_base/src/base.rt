// The base of a channel, from the head of its image and what the image tells of the channel.
ghost use Rattle.std.specs.Prelude.{◌≡◌, IfOk};
ghost use Rattle.ssd_formats.specs.ImageContents.{ChannelImage, IsBaseOf, blocks_of_saved, is_factory_bad, sum_of_saved};
ghost use Rattle.ssd_formats.specs.ImageHead.{head_of};
ghost use Rattle.ssd_geo.specs.Shape.{sizes_of};

use ssd_geo::{BlockBase, ChannelBase, ImageHead, Items, Memory, Row};
use std::alloc::Global;

/// The base of a channel with these superblocks, rows and sum of its open stripe. It is of any contents that have them.
pub fn base_of(
    alloc: Global,
    head: &ImageHead,
    channel: u8,
    blocks: Items<BlockBase>,
    rows: Items<Row>,
    sum: Items<u8>,
) -> Result<ChannelBase, Memory>
    ensures base { IfOk result (λ base. (saved : ChannelImage) → blocks ≡ blocks_of_saved saved.blocks → rows ≡ saved.rows
        → sum ≡ sum_of_saved (sizes_of head.now.shape) saved → IsBaseOf (head_of head.now) channel saved base) }
    ensures shape { IfOk result (λ base. base.shape ≡ head.now.shape) }
    ensures number { IfOk result (λ base. base.channel ≡ channel) }
    ensures blocks { IfOk result (λ base. base.blocks ≡ blocks) }
    ensures rows { IfOk result (λ base. base.rows ≡ rows) }
    ensures sum { IfOk result (λ base. base.sum ≡ sum) }
{
    let entries = copied(alloc, &head.entries)?;
    let read_levels = copied(alloc, &head.read_levels)?;
    let weak = copied(alloc, &head.weak)?;
    Ok(ChannelBase {
        shape: head.shape,
        session: head.session,
        blocks,
        rows,
        sum,
        channel,
        entries,
        read_levels,
        iterations: head.iterations,
        step: head.step,
        law: head.law,
        weak,
    })
}

/// Whether the head lists a superblock of a channel as factory bad.
pub fn is_listed_bad(head: &ImageHead, channel: u8, sb: u16) -> bool
    ensures { result ≡ is_factory_bad (head_of head.now) channel sb }
{
    head.bad
        .as_slice()
        .iter()
        .any(|bad| bad.0 == channel && bad.1 == sb)
}

// A copy of a list.
fn copied<T: Copy>(alloc: Global, list: &Items<T>) -> Result<Items<T>, Memory>
    ensures { IfOk result (λ copy. copy ≡ list.now) }
{
    match Vec::from_slice(alloc, list.as_slice()) {
        Ok(vec) => Ok(Items::new(vec)),
        Err(_) => Err(Memory),
    }
}

// What a channel of a blank drive begins with.
ghost use Rattle.std.specs.Prelude.{◌≡◌, ◌<◌, IfOk, replicate};
ghost use Rattle.ssd_formats.specs.ImageContents.{IsBaseOf, blank_channel, blank_saved, blocks_of_saved};
ghost use Rattle.ssd_formats.specs.ImageHead.{head_of};
ghost use Rattle.ssd_geo.specs.Coding.{word_bytes_in};
ghost use Rattle.ssd_geo.specs.StripeSum.{zero_word};
ghost use Rattle.ssd_geo.specs.declared.row.Row.TheVariants.{Empty};

use crate::base::{base_of, is_listed_bad};
use ssd_geo::{BlockBase, ChannelBase, ImageHead, Items, Memory, Row, SbState, Shape};
use std::alloc::Global;

/// A channel of a blank drive, as the head of its image tells it.
pub fn blank_base(alloc: Global, head: &ImageHead, channel: u8) -> Result<ChannelBase, Memory>
    requires { channel < head.now.shape.channels }
    ensures base { let saved = blank_channel (head_of head.now) channel in
        IfOk result (λ base. IsBaseOf (head_of head.now) channel saved base) }
    ensures shape { IfOk result (λ base. base.shape ≡ head.now.shape) }
{
    let blocks = blank_blocks(alloc, head, channel)?;
    let rows = empty_rows(alloc, head.shape.rows)?;
    let sum = zero_sum(alloc, &head.shape)?;
    base_of(alloc, head, channel, blocks, rows, sum)
}

fn blank_blocks(alloc: Global, head: &ImageHead, channel: u8) -> Result<Items<BlockBase>, Memory>
    ensures { IfOk result
        (λ blocks. blocks ≡ blocks_of_saved (blank_channel (head_of head.now) channel).blocks) }
{
    let count = head.shape.superblocks;
    let Ok(mut blocks) = Vec::with_capacity(alloc, count as usize) else {
        return Err(Memory);
    };
    for sb in 0..count {
        blocks.push_reserved(blank_block(head, channel, sb));
    }
    Ok(Items::new(blocks))
}

fn blank_block(head: &ImageHead, channel: u8, sb: u16) -> BlockBase
    ensures { result ≡ (blank_saved (head_of head.now) channel sb).block }
{
    BlockBase {
        state: if is_listed_bad(head, channel, sb) {
            SbState::Bad
        } else {
            SbState::Free
        },
        erases: 0,
        used: 0,
    }
}

fn empty_rows(alloc: Global, rows: u32) -> Result<Items<Row>, Memory>
    ensures { IfOk result (λ made. made ≡ replicate rows Empty) }
{
    match vec![in alloc; Row::Empty; rows as usize] {
        Ok(vec) => Ok(Items::new(vec)),
        Err(_) => Err(Memory),
    }
}

fn zero_sum(alloc: Global, shape: &Shape) -> Result<Items<u8>, Memory>
    ensures { IfOk result (λ sum. sum ≡ zero_word (word_bytes_in shape.now)) }
{
    match vec![in alloc; 0; shape.word_bytes()] {
        Ok(vec) => Ok(Items::new(vec)),
        Err(_) => Err(Memory),
    }
}

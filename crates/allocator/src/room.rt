ghost use Rattle.std.specs.Prelude.{◌≡◌, ◌-◌, ◌<◌, ◌≤◌, ◌^◌, IfSome, length};
ghost use Rattle.allocator.specs.Superblocks.{beats, best_with};
ghost use Rattle.ssd_histories.specs.Blocks.{free_blocks_in, freshest_of, frontier_of, victim_in};

use crate::states::{is_free, is_frontier, is_victim};
use ssd_geo::BlockBase;

// The frontier of the superblocks.
pub(crate) fn frontier_in(blocks: &[BlockBase]) -> Option<u16>
    requires { length blocks.now ≤ 256 }
    ensures { result ≡ frontier_of blocks.now }
{
    narrowed(frontier_place(blocks))
}

// The victim of the superblocks.
pub(crate) fn victim_in(blocks: &[BlockBase]) -> Option<u16>
    requires { length blocks.now ≤ 256 }
    ensures { result ≡ victim_in blocks.now }
{
    narrowed(victim_place(blocks))
}

// How many superblocks are free.
pub(crate) fn free_in(blocks: &[BlockBase]) -> u16
    requires { length blocks.now ≤ 256 }
    ensures { result ≡ free_blocks_in blocks.now }
{
    blocks.iter().filter(|block| is_free(block)).count() as u16
}

// The free superblock with the least erase count, the least number among equals.
pub(crate) fn freshest(blocks: &[BlockBase]) -> Option<u16>
    requires { length blocks.now ≤ 256 }
    ensures { result ≡ freshest_of blocks.now }
{
    let mut best = None;
    for sb in 0..blocks.len() {
        best = better(blocks, sb, best);
    }
    narrowed(best)
}

// Where the frontier stands.
fn frontier_place(blocks: &[BlockBase]) -> Option<usize>
    ensures value { result ≡ frontier_of blocks.now }
    ensures bound { IfSome result (λ sb. sb < length blocks.now) }
{
    blocks.iter().position(|block| is_frontier(block))
}

// Where the victim stands.
fn victim_place(blocks: &[BlockBase]) -> Option<usize>
    ensures value { result ≡ victim_in blocks.now }
    ensures bound { IfSome result (λ sb. sb < length blocks.now) }
{
    blocks.iter().position(|block| is_victim(block))
}

// A place in a list of at most 256 superblocks as the number of its superblock.
fn narrowed(place: Option<usize>) -> Option<u16>
    requires { IfSome place (λ sb. sb < 256) }
    ensures { result ≡ place }
{
    match place {
        Some(sb) => Some(sb as u16),
        None => None,
    }
}

// The best superblock so far, or this one, where it is free and was erased less often.
fn better(blocks: &[BlockBase], sb: usize, best: Option<usize>) -> Option<usize>
    requires in_range { sb < length blocks.now }
    requires best_in_range { IfSome best (λ b. b < length blocks.now) }
    ensures { result ≡ best_with blocks.now sb best }
{
    let block = blocks[sb];
    if is_free(&block) && is_fresher(blocks, block.erases, best) {
        Some(sb)
    } else {
        best
    }
}

// Whether a superblock with this erase count comes before the best so far.
fn is_fresher(blocks: &[BlockBase], erases: u32, best: Option<usize>) -> bool
    requires { IfSome best (λ sb. sb < length blocks.now) }
    ensures { result ≡ beats blocks.now erases best }
{
    match best {
        Some(sb) => erases < blocks[sb].erases,
        None => true,
    }
}

// The state of a superblock.
ghost use Rattle.std.specs.Prelude.{◌≡◌, ◌+◌, ◌^◌, ◌<◌, IfOk, IsTrue, length};
ghost use Rattle.std.specs.List.{list_any};
ghost use Rattle.ssd_formats.specs.ImageContents.{state_of_number};
ghost use Rattle.ssd_formats.specs.ImageHead.{head_of};
ghost use Rattle.ssd_histories.specs.Blocks.{is_frontier_block, is_victim_block};
ghost use Rattle.image_file.specs.Gives.{Reads};
ghost use Rattle.image_contents.specs.Parts.{may_follow, state_after};

use channel_base::is_listed_bad;
use image_file::{ImageFault, ReadStop, read_u8};
use ssd_geo::{BlockBase, ImageHead, SbState};
use ssd_io::Source;

// The state that a number stands for.
fn state_of(number: u8) -> Option<SbState>
    ensures { result ≡ state_of_number number }
{
    match number {
        0 => Some(SbState::Free),
        1 => Some(SbState::Frontier),
        2 => Some(SbState::Sealed),
        3 => Some(SbState::Bad),
        4 => Some(SbState::Victim),
        _ => None,
    }
}

// Whether one of the superblocks before is the frontier.
fn has_frontier(before: &[BlockBase]) -> bool
    ensures { result ≡ list_any is_frontier_block before.now }
{
    before.iter().any(|block| block.state == SbState::Frontier)
}

// Whether one of them is the victim.
fn has_victim(before: &[BlockBase]) -> bool
    ensures { result ≡ list_any is_victim_block before.now }
{
    before.iter().any(|block| block.state == SbState::Victim)
}

// Whether the superblock after those before may be in a state.
fn may_be(head: &ImageHead, channel: u8, before: &[BlockBase], state: SbState) -> bool
    requires { length before.now < 2 ^ 16 }
    ensures { result ≡ may_follow (head_of head.now) channel before.now state }
{
    match state {
        SbState::Bad => true,
        SbState::Frontier if has_frontier(before) => false,
        SbState::Victim if has_victim(before) => false,
        _ => !is_listed_bad(head, channel, before.len() as u16),
    }
}

/// The state of the superblock after those before.
#[tactic(auto, using(crate::proofs::Numbers::state_passes, crate::proofs::Numbers::state_lacks, crate::proofs::Numbers::state_fails, crate::proofs::Numbers::state_ends))]
pub fn read_state<S: Source>(
    input: &mut S,
    place: u64,
    head: &ImageHead,
    channel: u8,
    before: &[BlockBase],
) -> Result<SbState, ReadStop<ImageFault>>
    requires place { place < 2 ^ 63 }
    requires before { length before.now < 2 ^ 16 }
    ensures read { Reads (λ state. state) (S.left input.old) (S.left input.new) (S.faults input.old) (S.faults input.new)
        place (place + 1) result (state_after (head_of head.now) channel before.now) }
    ensures may { IfOk result (λ state. IsTrue (may_follow (head_of head.now) channel before.now state)) }
{
    let number = read_u8(input, place)?;
    if let Some(state) = state_of(number) {
        if may_be(head, channel, before, state) {
            return Ok(state);
        }
    }
    Err(ReadStop::Fault {
        at: place,
        fault: ImageFault::State,
    })
}

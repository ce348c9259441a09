// What stands before the pages of a superblock, and the sum behind them.
ghost use Rattle.std.specs.Prelude.{◌≡◌, ◌<◌, [], flat_map, if◌then◌else◌, is_some, map, slice_index_or, true};
ghost use Rattle.ssd_formats.specs.ImageContents.{is_stripe_open, number_of_state, pages_at};
ghost use Rattle.ssd_geo.specs.Shape.{sizes_of};
ghost use Rattle.ssd_io.specs.Writes.{Writes};
ghost use Rattle.chan_dies.specs.DiesState.{blocks_in};
ghost use Rattle.onfi_cmd.specs.DieCalls.{IsBlock};
ghost use Rattle.contents_file.specs.BlockParts.{base_bytes, count_bytes};
ghost use Rattle.contents_file.specs.DiesCopied.{AllTellPages, cells_told};

use crate::put::put;
use onfi_cmd::Die;
use ssd_geo::{BlockBase, SbState, Shape};
use ssd_io::{Failed, Sink};

// The number that stands for a state.
fn number_of(state: SbState) -> u8
    ensures { result ≡ number_of_state state }
{
    match state {
        SbState::Free => 0,
        SbState::Frontier => 1,
        SbState::Sealed => 2,
        SbState::Bad => 3,
        SbState::Victim => 4,
    }
}

// The bytes of a superblock's base.
#[tactic(auto, using(crate::proofs::SpelledBytes::byte_spelled), unfolding(crate::specs::BlockParts::base_bytes))]
fn spell_base(block: &BlockBase) -> [u8; 9]
    ensures { result ≡ base_bytes block.now }
{
    let [e0, e1, e2, e3] = block.erases.to_le_bytes();
    let [u0, u1, u2, u3] = block.used.to_le_bytes();
    [number_of(block.state), e0, e1, e2, e3, u0, u1, u2, u3]
}

/// Writes the base of a superblock: its state, its erases and its used slots.
pub fn write_base<O: Sink>(output: &mut O, block: &BlockBase) -> Result<(), Failed>
    ensures { Writes O.written O.faults output.old output.new result (base_bytes block.now) }
{
    put(output, &spell_base(block))
}

// Writes how many pages of a block of a die are programmed.
fn write_count<O: Sink, D: Die>(output: &mut O, die: &D, sb: u16) -> Result<(), Failed>
    requires block { IsBlock (D.state die.now) sb }
    requires tells { is_some (D.state die.now).told ≡ true }
    ensures { Writes O.written O.faults output.old output.new result (count_bytes (pages_at sb (blocks_in (D.state die.now)))) }
{
    let count = die.programmed(sb);
    put(output, &count.to_le_bytes())
}

// Writes that of one die of a channel.
fn write_count_at<O: Sink, D: Die>(
    output: &mut O,
    shape: &Shape,
    dies: &[D],
    die: u8,
    sb: u16,
) -> Result<(), Failed>
    requires dies { AllTellPages shape.now (map D.state dies.now) }
    requires die { die < shape.now.dies }
    requires sb { sb < shape.now.superblocks }
    ensures { Writes O.written O.faults output.old output.new result
        (count_bytes (slice_index_or (map (pages_at sb) (cells_told (map D.state dies.now))) die [])) }
{
    write_count(output, &dies[die as usize], sb)
}

/// Writes how many pages of a superblock each die has programmed.
pub fn write_counts<O: Sink, D: Die>(
    output: &mut O,
    shape: &Shape,
    dies: &[D],
    sb: u16,
) -> Result<(), Failed>
    requires dies { AllTellPages shape.now (map D.state dies.now) }
    requires sb { sb < shape.now.superblocks }
    ensures { Writes O.written O.faults output.old output.new result
        (flat_map count_bytes (map (pages_at sb) (cells_told (map D.state dies.now)))) }
{
    for die in 0..shape.dies {
        write_count_at(output, shape, dies, die, sb)?;
    }
    Ok(())
}

// Whether a superblock has an open stripe.
fn has_open_stripe(shape: &Shape, block: &BlockBase) -> bool
    ensures { result ≡ is_stripe_open (sizes_of shape.now) block.now }
{
    block.state == SbState::Frontier && block.used % (shape.dies as u32 - 1) != 0
}

/// Writes the sum of the open stripe of a superblock, if it has one.
pub fn write_sum<O: Sink>(
    output: &mut O,
    shape: &Shape,
    block: &BlockBase,
    sum: &[u8],
) -> Result<(), Failed>
    ensures { Writes O.written O.faults output.old output.new result
        (if is_stripe_open (sizes_of shape.now) block.now then sum.now else []) }
{
    if has_open_stripe(shape, block) {
        return put(output, sum);
    }
    put(output, &[])
}

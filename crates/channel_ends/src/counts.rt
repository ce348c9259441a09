// The numbers of programmed pages that dies tell.
ghost use Rattle.std.specs.Prelude.{◌≡◌, ◌<◌, ◌≤◌, is_some, map, true};
ghost use Rattle.chan_dies.specs.DiesState.{AreMounted, blocks_in};
ghost use Rattle.onfi_cmd.specs.DieCalls.{IsMountedAnd};
ghost use Rattle.onfi_cmd.specs.DieState.{programmed_in};
ghost use Rattle.channel_ends.specs.ChannelEnds.{HasFewPages, HaveFewPages};

use onfi_cmd::Die;
use ssd_geo::Shape;

// Asks a die for the number of one block.
#[tactic(auto, using(crate::proofs::PageCounts::few_in_block))]
fn count_in_block<D: Die>(shape: &Shape, die: &D, sb: u16)
    requires mounted { IsMountedAnd (D.state die.now) (λ plan. plan.shape ≡ shape.now) }
    requires tells { is_some (D.state die.now).told ≡ true }
    requires sb { sb < shape.now.superblocks }
    ensures { programmed_in (blocks_in (D.state die.now)) sb ≤ shape.now.pages }
{
    let _count = die.programmed(sb);
}

// Asks a die for those of all its blocks.
fn count_in_die<D: Die>(shape: &Shape, die: &D)
    requires mounted { IsMountedAnd (D.state die.now) (λ plan. plan.shape ≡ shape.now) }
    requires tells { is_some (D.state die.now).told ≡ true }
    ensures { HasFewPages shape.now (D.state die.now) }
{
    for sb in 0..shape.superblocks {
        count_in_block(shape, die, sb);
    }
}

/// Asks the dies of a channel, mounted in a drive of this shape, for the number of programmed pages of each block. A die tells no
/// more than a block has.
pub fn count_pages<D: Die>(shape: &Shape, dies: &[D])
    requires { AreMounted shape.now (map D.state dies.now) }
    ensures { HaveFewPages shape.now (map D.state dies.now) }
{
    for die in 0..shape.dies {
        count_in_die(shape, &dies[die as usize]);
    }
}

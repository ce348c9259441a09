ghost use Rattle.std.specs.Prelude.{◌≡◌, ◌+◌, ◌-◌, ◌^◌, ◌<◌, ◌≤◌, map, vec_capacity};
ghost use Rattle.ssd_geo.specs.BlockCells.{cells_at};
ghost use Rattle.ssd_geo.specs.Coding.{word_bytes_in};
ghost use Rattle.ssd_geo.specs.StripeLaws.{IsPlace};
ghost use Rattle.chan_dies.specs.DiesState.{AreMounted, blocks_told};
ghost use Rattle.chan_dies.specs.Erasing.{CanCountErases, EndsErase};
ghost use Rattle.chan_dies.specs.OneDie.{ChangesDie, ErasesBlock};
ghost use Rattle.chan_dies.specs.Operations.{EndsAs};

use crate::EraseEnd;
use crate::one_die::{DieEnd, erase_block};
use onfi_cmd::{Cycle, Die};
use ssd_geo::{Place, Shape};

/// Erases the blocks of a superblock in the order of the dies, up to one that fails.
pub(crate) fn erase_dies<D: Die>(
    dies: &mut Vec<D>,
    cycles: &mut Vec<Cycle>,
    shape: &Shape,
    sb: u16,
) -> EraseEnd
    requires mounted { AreMounted shape.now (map D.state dies.old.items) }
    requires superblock { sb < shape.now.superblocks }
    requires erases { CanCountErases shape.now.dies sb (map D.state dies.old.items) }
    requires room { word_bytes_in shape.now + 7 ≤ vec_capacity cycles.old }
    ensures end { EndsErase shape.now.dies sb (map D.state dies.old.items) (map D.state dies.new.items) result }
    ensures mounted { AreMounted shape.now (map D.state dies.new.items) }
    ensures room { vec_capacity cycles.old ≤ vec_capacity cycles.new }
{
    for die in 0..shape.dies {
        match erase_at(dies, cycles, shape, Place { die, sb, page: 0 }) {
            DieEnd::Passed => {}
            DieEnd::Failed => return EraseEnd::Failed { die },
            DieEnd::Fault => return EraseEnd::Fault { die },
        }
    }
    EraseEnd::Erased
}

// Erases the block of a place.
fn erase_at<D: Die>(
    dies: &mut Vec<D>,
    cycles: &mut Vec<Cycle>,
    shape: &Shape,
    place: Place,
) -> DieEnd
    requires mounted { AreMounted shape.now (map D.state dies.old.items) }
    requires place { IsPlace shape.now.dies shape.now.superblocks shape.now.pages place }
    requires erases { (cells_at (blocks_told (map D.state dies.old.items) place.die) place.sb).erases < 2 ^ 32 - 1 }
    requires room { word_bytes_in shape.now + 7 ≤ vec_capacity cycles.old }
    ensures end { ChangesDie place.die (EndsAs (ErasesBlock place.sb) place.sb result)
        (map D.state dies.old.items) (map D.state dies.new.items) }
    ensures mounted { AreMounted shape.now (map D.state dies.new.items) }
    ensures room { vec_capacity cycles.old ≤ vec_capacity cycles.new }
{
    let die = &mut dies[place.die as usize];
    erase_block(die, cycles, shape, place)
}

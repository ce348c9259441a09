// The programmed pages of one superblock, die by die.
ghost use Rattle.std.specs.Prelude.{◌≡◌, ◌+◌, ◌<◌, ◌≤◌, [], flat_map, length, map, slice_index_or, vec_len};
ghost use Rattle.ssd_formats.specs.ImageContents.{pages_at, pages_bytes};
ghost use Rattle.ssd_geo.specs.Limits.{page_cells_of};
ghost use Rattle.ssd_geo.specs.Shape.{sizes_of};
ghost use Rattle.contents_file.specs.DiesCopied.{AllStayOrOneFaults, AllTellPages, cells_told};
ghost use Rattle.contents_file.specs.Saves.{Puts};

use crate::pages::write_pages;
use crate::stop::WriteStop;
use crate::work::PageWork;
use onfi_cmd::Die;
use ssd_geo::Shape;
use ssd_io::Sink;

// Those of one die.
fn write_die<O: Sink, D: Die>(
    output: &mut O,
    shape: &Shape,
    dies: &mut [D],
    die: u8,
    first: u8,
    sb: u16,
    work: &mut PageWork,
) -> Result<(), WriteStop>
    requires dies { AllTellPages shape.now (map D.state dies.old) }
    requires die { die < shape.now.dies }
    requires first { first + shape.now.dies ≤ 64 }
    requires sb { sb < shape.now.superblocks }
    requires cells { vec_len work.old.levels ≡ page_cells_of (sizes_of shape.now) }
    ensures puts { Puts O.written O.faults output.old output.new result
        (pages_bytes (slice_index_or (map (pages_at sb) (cells_told (map D.state dies.old))) die [])) }
    ensures dies { AllStayOrOneFaults first (map D.state dies.old) (map D.state dies.new) result }
    ensures length { vec_len work.new.levels ≡ vec_len work.old.levels }
{
    write_pages(output, &mut dies[die as usize], first + die, sb, work)
}

/// Those of all dies. The first die has this number in the drive.
pub fn write_dies<O: Sink, D: Die>(
    output: &mut O,
    shape: &Shape,
    dies: &mut [D],
    first: u8,
    sb: u16,
    work: &mut PageWork,
) -> Result<(), WriteStop>
    requires dies { AllTellPages shape.now (map D.state dies.old) }
    requires first { first + shape.now.dies ≤ 64 }
    requires sb { sb < shape.now.superblocks }
    requires cells { vec_len work.old.levels ≡ page_cells_of (sizes_of shape.now) }
    ensures puts { Puts O.written O.faults output.old output.new result
        (flat_map pages_bytes (map (pages_at sb) (cells_told (map D.state dies.old)))) }
    ensures dies { AllStayOrOneFaults first (map D.state dies.old) (map D.state dies.new) result }
    ensures length { vec_len work.new.levels ≡ vec_len work.old.levels }
{
    for die in 0..shape.dies {
        match write_die(output, shape, dies, die, first, sb, work) {
            Ok(()) => {}
            Err(stop) => return Err(stop),
        }
    }
    Ok(())
}

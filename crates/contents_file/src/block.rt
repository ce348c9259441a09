// The superblocks of a channel.
ghost use Rattle.std.specs.Prelude.{◌≡◌, ◌*◌, ◌<◌, flat_map, length, map, slice_index_or, vec_len};
ghost use Rattle.ssd_formats.specs.ImageContents.{block_bytes, pages_at, saved_block, saved_channel};
ghost use Rattle.ssd_geo.specs.Limits.{page_cells_of};
ghost use Rattle.ssd_geo.specs.Shape.{sizes_of};
ghost use Rattle.ssd_io.specs.Writes.{Writes};
ghost use Rattle.contents_file.specs.BlockParts.{front_bytes};
ghost use Rattle.contents_file.specs.DiesCopied.{AllStayOrOneFaults, AllTellPages, cells_told};
ghost use Rattle.contents_file.specs.Saves.{Puts};

use crate::dies::write_dies;
use crate::front::{write_base, write_counts, write_sum};
use crate::stop::WriteStop;
use crate::work::PageWork;
use onfi_cmd::Die;
use ssd_geo::{BlockBase, ChannelBase, Shape};
use ssd_io::{Failed, Sink};

// The base of a superblock of a channel.
fn block_of(base: &ChannelBase, sb: u16) -> BlockBase
    requires { sb < length base.now.blocks }
    ensures { result ≡ slice_index_or base.now.blocks sb result }
{
    base.blocks.as_slice()[sb as usize]
}

// What stands before the pages of a superblock: its base, and how many pages each die has.
fn write_front<O: Sink, D: Die>(
    output: &mut O,
    shape: &Shape,
    block: &BlockBase,
    dies: &[D],
    sb: u16,
) -> Result<(), Failed>
    requires dies { AllTellPages shape.now (map D.state dies.now) }
    requires sb { sb < shape.now.superblocks }
    ensures { Writes O.written O.faults output.old output.new result
        (front_bytes block.now (map (pages_at sb) (cells_told (map D.state dies.now)))) }
{
    write_base(output, block)?;
    write_counts(output, shape, dies, sb)
}

// One superblock with this base.
fn write_block<O: Sink, D: Die>(
    output: &mut O,
    base: &ChannelBase,
    block: BlockBase,
    dies: &mut [D],
    sb: u16,
    work: &mut PageWork,
) -> Result<(), WriteStop>
    requires channel { base.now.channel < base.now.shape.channels }
    requires dies { AllTellPages base.now.shape (map D.state dies.old) }
    requires sb { sb < base.now.shape.superblocks }
    requires cells { vec_len work.old.levels ≡ page_cells_of (sizes_of base.now.shape) }
    ensures puts { let cells = cells_told (map D.state dies.old) in
        Puts O.written O.faults output.old output.new result
        (block_bytes (saved_block (sizes_of base.now.shape) base.now.sum cells (sb, block))) }
    ensures dies { AllStayOrOneFaults (base.now.channel * base.now.shape.dies)
        (map D.state dies.old) (map D.state dies.new) result }
    ensures length { vec_len work.new.levels ≡ vec_len work.old.levels }
{
    let shape = &base.shape;
    match write_front(output, shape, &block, dies, sb) {
        Ok(()) => {}
        Err(Failed) => return Err(WriteStop::WriteFault),
    }
    match write_dies(output, shape, dies, base.channel * shape.dies, sb, work) {
        Ok(()) => {}
        Err(stop) => return Err(stop),
    }
    match write_sum(output, shape, &block, base.sum.as_slice()) {
        Ok(()) => Ok(()),
        Err(Failed) => Err(WriteStop::WriteFault),
    }
}

/// All superblocks of a channel.
pub fn write_blocks<O: Sink, D: Die>(
    output: &mut O,
    base: &ChannelBase,
    dies: &mut [D],
    work: &mut PageWork,
) -> Result<(), WriteStop>
    requires channel { base.now.channel < base.now.shape.channels }
    requires blocks { length base.now.blocks ≡ base.now.shape.superblocks }
    requires dies { AllTellPages base.now.shape (map D.state dies.old) }
    requires cells { vec_len work.old.levels ≡ page_cells_of (sizes_of base.now.shape) }
    ensures puts { Puts O.written O.faults output.old output.new result
        (flat_map block_bytes (saved_channel base.now (cells_told (map D.state dies.old))).blocks) }
    ensures dies { AllStayOrOneFaults (base.now.channel * base.now.shape.dies)
        (map D.state dies.old) (map D.state dies.new) result }
    ensures length { vec_len work.new.levels ≡ vec_len work.old.levels }
{
    for sb in 0..base.shape.superblocks {
        match write_block(output, base, block_of(base, sb), dies, sb, work) {
            Ok(()) => {}
            Err(stop) => return Err(stop),
        }
    }
    Ok(())
}

// The contents of the channels of a drive, one after the other.
ghost use Rattle.std.specs.Prelude.{◌≡◌, ◌+◌, ◌*◌, ◌<◌, flat_map, length, map, vec_len};
ghost use Rattle.ssd_formats.specs.ImageContents.{channel_bytes, saved_channel};
ghost use Rattle.ssd_geo.specs.Limits.{page_cells_of};
ghost use Rattle.ssd_geo.specs.Shape.{sizes_of};
ghost use Rattle.contents_file.specs.DiesCopied.{AllStayOrOneFaults, AllTellPages, cells_told};
ghost use Rattle.contents_file.specs.Saves.{Saves};
ghost use Rattle.drive_image.specs.WholeImage.{AreBasesOf, ChannelsTellPages, NamesOneBelow, saved_channels_of};
ghost use Rattle.final_dies.specs.FinalDies.{dies_of_channel};

use contents_file::{PageWork, WriteStop, write_channel};
use onfi_cmd::Die;
use ssd_geo::{ChannelBase, Shape};
use ssd_io::Sink;

// Those of the channel with this base, whose dies are among those of the drive.
fn write_one<O: Sink, D: Die>(
    output: &mut O,
    base: &ChannelBase,
    dies: &mut [D],
    work: &mut PageWork,
) -> Result<(), WriteStop>
    requires channel { base.now.channel < base.now.shape.channels }
    requires blocks { length base.now.blocks ≡ base.now.shape.superblocks }
    requires rows { length base.now.rows ≡ base.now.shape.rows }
    requires dies { AllTellPages base.now.shape
        (dies_of_channel base.now.shape.dies (map D.state dies.old) base.now.channel) }
    requires cells { vec_len work.old.levels ≡ page_cells_of (sizes_of base.now.shape) }
    ensures saves { let own = dies_of_channel base.now.shape.dies (map D.state dies.old) base.now.channel in
        Saves O.written O.faults output.old output.new result (channel_bytes (saved_channel base.now (cells_told own))) }
    ensures dies { AllStayOrOneFaults 0 (map D.state dies.old) (map D.state dies.new) result }
    ensures names { NamesOneBelow (base.now.channel * base.now.shape.dies + base.now.shape.dies) result }
    ensures cells { vec_len work.new.levels ≡ vec_len work.old.levels }
{
    let count = base.shape.dies as usize;
    let first = base.channel as usize * count;
    write_channel(output, base, &mut dies[first..first + count], work)
}

/// Those of all channels.
pub fn write_channels<O: Sink, D: Die>(
    output: &mut O,
    shape: &Shape,
    bases: &[ChannelBase],
    dies: &mut [D],
    work: &mut PageWork,
) -> Result<(), WriteStop>
    requires bases { AreBasesOf shape.now bases.now }
    requires dies { ChannelsTellPages shape.now (map D.state dies.old) }
    requires cells { vec_len work.old.levels ≡ page_cells_of (sizes_of shape.now) }
    ensures saves { Saves O.written O.faults output.old output.new result
        (flat_map channel_bytes (saved_channels_of shape.now bases.now (map D.state dies.old))) }
    ensures dies { AllStayOrOneFaults 0 (map D.state dies.old) (map D.state dies.new) result }
    ensures names { NamesOneBelow (shape.now.channels * shape.now.dies) result }
    ensures cells { vec_len work.new.levels ≡ vec_len work.old.levels }
{
    for channel in 0..shape.channels {
        match write_one(output, &bases[channel as usize], dies, work) {
            Ok(()) => {}
            Err(stop) => return Err(stop),
        }
    }
    Ok(())
}

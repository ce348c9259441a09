// The contents of one channel.
ghost use Rattle.std.specs.Prelude.{◌≡◌, ◌*◌, ◌<◌, length, map, vec_len};
ghost use Rattle.ssd_formats.specs.ImageContents.{channel_bytes, saved_channel};
ghost use Rattle.ssd_geo.specs.Limits.{page_cells_of};
ghost use Rattle.ssd_geo.specs.Shape.{sizes_of};
ghost use Rattle.contents_file.specs.DiesCopied.{AllStayOrOneFaults, AllTellPages, cells_told};
ghost use Rattle.contents_file.specs.Saves.{Saves};

use crate::block::write_blocks;
use crate::rows::write_rows;
use crate::stop::WriteStop;
use crate::work::PageWork;
use onfi_cmd::Die;
use ssd_geo::ChannelBase;
use ssd_io::{Failed, Sink};

/// Writes the contents of a channel with this base and the pages that its dies tell, one page at a time. It takes no memory.
/// The dies stay as they are, but that one whose call fails counts a load. After a stop the first of the bytes are written.
pub fn write_channel<O: Sink, D: Die>(
    output: &mut O,
    base: &ChannelBase,
    dies: &mut [D],
    work: &mut PageWork,
) -> Result<(), WriteStop>
    requires channel { base.now.channel < base.now.shape.channels }
    requires blocks { length base.now.blocks ≡ base.now.shape.superblocks }
    requires rows { length base.now.rows ≡ base.now.shape.rows }
    requires dies { AllTellPages base.now.shape (map D.state dies.old) }
    requires cells { vec_len work.old.levels ≡ page_cells_of (sizes_of base.now.shape) }
    ensures saves { Saves O.written O.faults output.old output.new result
        (channel_bytes (saved_channel base.now (cells_told (map D.state dies.old)))) }
    ensures dies { AllStayOrOneFaults (base.now.channel * base.now.shape.dies)
        (map D.state dies.old) (map D.state dies.new) result }
    ensures cells { vec_len work.new.levels ≡ vec_len work.old.levels }
{
    match write_blocks(output, base, dies, work) {
        Ok(()) => {}
        Err(stop) => return Err(stop),
    }
    match write_rows(output, base.rows.as_slice()) {
        Ok(()) => Ok(()),
        Err(Failed) => Err(WriteStop::WriteFault),
    }
}

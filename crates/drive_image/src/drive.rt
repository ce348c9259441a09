// The image of a drive.
ghost use Rattle.std.specs.Prelude.{◌≡◌, ◌*◌, map, vec_len};
ghost use Rattle.ssd_formats.specs.ImageContents.{image_bytes};
ghost use Rattle.ssd_formats.specs.ImageHead.{IsHead, head_of};
ghost use Rattle.ssd_geo.specs.Limits.{page_cells_of};
ghost use Rattle.ssd_geo.specs.Shape.{sizes_of};
ghost use Rattle.contents_file.specs.DiesCopied.{AllStayOrOneFaults};
ghost use Rattle.contents_file.specs.Saves.{Saves};
ghost use Rattle.drive_image.specs.WholeImage.{AreBasesOf, ChannelsTellPages, NamesOneBelow, saved_channels_of};

use crate::channels::write_channels;
use contents_file::{PageWork, WriteStop};
use image_file::write_head;
use onfi_cmd::Die;
use ssd_geo::{ChannelBase, ImageHead};
use ssd_io::{Failed, Sink};

/// Writes the image of a drive: its head as it is, and then what each channel is saved as, page by page. It takes no memory.
/// The dies stay as they are, but that one whose call fails counts a load. After a stop the first of the bytes are written.
pub fn write_drive<O: Sink, D: Die>(
    output: &mut O,
    head: &ImageHead,
    bases: &[ChannelBase],
    dies: &mut [D],
    work: &mut PageWork,
) -> Result<(), WriteStop>
    requires head { IsHead (head_of head.now) }
    requires bases { AreBasesOf head.now.shape bases.now }
    requires dies { ChannelsTellPages head.now.shape (map D.state dies.old) }
    requires cells { vec_len work.old.levels ≡ page_cells_of (sizes_of head.now.shape) }
    ensures saves { Saves O.written O.faults output.old output.new result
        (image_bytes (head_of head.now) (saved_channels_of head.now.shape bases.now (map D.state dies.old))) }
    ensures dies { AllStayOrOneFaults 0 (map D.state dies.old) (map D.state dies.new) result }
    ensures names { NamesOneBelow (head.now.shape.channels * head.now.shape.dies) result }
    ensures cells { vec_len work.new.levels ≡ vec_len work.old.levels }
{
    match write_head(output, head) {
        Ok(()) => {}
        Err(Failed) => return Err(WriteStop::WriteFault),
    }
    write_channels(output, &head.shape, bases, dies, work)
}

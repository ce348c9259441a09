ghost use Rattle.std.specs.Prelude.{◌≡◌, ◌^◌, ◌<◌, [], IfOk, OnOk, drop, map};
ghost use Rattle.drive_contents.specs.LoadedDrive.{AreBlankBelow, AreOfDrive};
ghost use Rattle.drive_dies.specs.Mounting.{AreReady, die_count};
ghost use Rattle.image_contents.specs.DiesLoaded.{BecomeLoaded};
ghost use Rattle.image_contents.specs.Loads.{Loads};
ghost use Rattle.saved_drive.specs.Contents.{AreMounted};
ghost use Rattle.ssd_formats.specs.ImageContents.{read_channels};
ghost use Rattle.ssd_formats.specs.ImageHead.{IsHead, head_of};

use crate::loading::load_full;
use channel_base::blank_base;
use image_file::{ImageFault, ReadStop};
use onfi_cmd::Die;
use ssd_geo::{ChannelBase, ImageHead, Memory};
use ssd_io::Source;
use std::alloc::Global;

// The bases of the channels of a blank drive.
fn blank_bases(alloc: Global, head: &ImageHead) -> Result<Vec<ChannelBase>, Memory>
    requires { IsHead (head_of head.now) }
    ensures { IfOk result (λ bases. AreBlankBelow (head_of head.now) head.now.shape.channels bases.items) }
{
    let mut bases = Vec::new(alloc);
    for channel in 0..head.shape.channels {
        let base = blank_base(alloc, head, channel)?;
        let Ok(()) = bases.push(base) else {
            return Err(Memory);
        };
    }
    Ok(bases)
}

/// What an image tells of all channels, whose pages are loaded into the dies of the drive. These are mounted, and the first of
/// the list; the others are as they were. The head's place goes on to what follows. Of a blank image nothing is read, and
/// its dies stay blank. After a stop the head is where the channels before it ended, and the dies have what was loaded so far.
pub fn load_contents<S: Source, D: Die>(
    alloc: Global,
    input: &mut S,
    head: &mut ImageHead,
    dies: &mut Vec<D>,
) -> Result<Vec<ChannelBase>, ReadStop<ImageFault>>
    requires head { IsHead (head_of head.old) }
    requires place { head.old.place < 2 ^ 60 }
    requires dies { AreReady head.old (map D.state dies.old.items) }
    ensures read { Loads (λ bases saved. AreOfDrive (head_of head.old) saved bases.items (map D.state dies.new.items))
        (S.left input.old) (S.left input.new) (S.faults input.old) (S.faults input.new) head.old.place head.new.place result
        (read_channels (head_of head.old) head.old.shape.channels []) }
    ensures mounted { OnOk result (AreMounted head.old (map D.state dies.new.items)) }
    ensures loaded { BecomeLoaded 0 (map D.state dies.old.items) (map D.state dies.new.items) result }
    ensures others { drop (die_count head.old) (map D.state dies.new.items)
        ≡ drop (die_count head.old) (map D.state dies.old.items) }
    ensures head { head.new ≡ record head.old { place = head.new.place } }
{
    if head.full {
        return load_full(alloc, input, head, dies);
    }
    match blank_bases(alloc, head) {
        Ok(bases) => Ok(bases),
        Err(Memory) => Err(ReadStop::Memory),
    }
}

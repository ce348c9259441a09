ghost use Rattle.std.specs.Prelude.{◌≡◌, ◌+◌, ◌*◌, ◌^◌, ◌<◌, ◌≤◌, [], OnErr, OnOk, drop, map};
ghost use Rattle.contents_start.specs.ContentsStart.{AreOfContents};
ghost use Rattle.drive_dies.specs.Mounting.{AreReady, die_count};
ghost use Rattle.final_dies.specs.FinalDies.{dies_of_channel};
ghost use Rattle.image_contents.specs.DiesLoaded.{BecomeLoaded};
ghost use Rattle.image_contents.specs.Loads.{Loads};
ghost use Rattle.saved_drive.specs.Contents.{AreMounted, AreOfImage};
ghost use Rattle.ssd_formats.specs.ImageContents.{read_channel, read_channels};
ghost use Rattle.ssd_formats.specs.ImageHead.{IsHead, head_of};
ghost use Rattle.drive_contents.specs.LoadedDrive.{AreReadyFrom, ChangesChannel};

use image_contents::read_channel;
use image_file::{ImageFault, ReadStop};
use onfi_cmd::Die;
use ssd_geo::{ChannelBase, ImageHead};
use ssd_io::Source;
use std::alloc::Global;

// What the image tells of one channel, whose pages are loaded into its dies among those of the drive.
fn load_channel<S: Source, D: Die>(
    alloc: Global,
    input: &mut S,
    head: &mut ImageHead,
    channel: u8,
    dies: &mut [D],
) -> Result<ChannelBase, ReadStop<ImageFault>>
    requires head { IsHead (head_of head.old) }
    requires channel { channel < head.old.shape.channels }
    requires place { head.old.place < 2 ^ 62 }
    requires dies { AreReadyFrom head.old channel (map D.state dies.old) }
    ensures read { Loads (λ base saved. AreOfContents (head_of head.old) channel saved base
        (dies_of_channel head.old.shape.dies (map D.state dies.new) channel))
        (S.left input.old) (S.left input.new) (S.faults input.old) (S.faults input.new) head.old.place head.new.place result
        (read_channel (head_of head.old) channel) }
    ensures loaded { let count = head.old.shape.dies in
        BecomeLoaded (channel * count) (dies_of_channel count (map D.state dies.old) channel)
        (dies_of_channel count (map D.state dies.new) channel) result }
    ensures others { ChangesChannel head.old.shape.dies channel (map D.state dies.old) (map D.state dies.new) }
    ensures head { head.new ≡ record head.old { place = head.new.place } }
    ensures near { OnOk result ((head.old.place ≤ head.new.place) × (head.new.place ≤ head.old.place + 2 ^ 41)) }
    ensures err { OnErr result (head.new ≡ head.old) }
{
    let count = head.shape.dies as usize;
    let first = channel as usize * count;
    read_channel(alloc, input, head, channel, &mut dies[first..first + count])
}

// What the image tells of all channels, one after the other.
fn load_channels<S: Source, D: Die>(
    alloc: Global,
    input: &mut S,
    head: &mut ImageHead,
    dies: &mut [D],
) -> Result<Vec<ChannelBase>, ReadStop<ImageFault>>
    requires head { IsHead (head_of head.old) }
    requires place { head.old.place < 2 ^ 60 }
    requires dies { AreReady head.old (map D.state dies.old) }
    ensures read { Loads (λ bases saved. AreOfImage (head_of head.old) saved bases.items (map D.state dies.new))
        (S.left input.old) (S.left input.new) (S.faults input.old) (S.faults input.new) head.old.place head.new.place result
        (read_channels (head_of head.old) head.old.shape.channels []) }
    ensures mounted { OnOk result (AreMounted head.old (map D.state dies.new)) }
    ensures loaded { BecomeLoaded 0 (map D.state dies.old) (map D.state dies.new) result }
    ensures others { drop (die_count head.old) (map D.state dies.new) ≡ drop (die_count head.old) (map D.state dies.old) }
    ensures head { head.new ≡ record head.old { place = head.new.place } }
{
    let mut bases = Vec::new(alloc);
    for channel in 0..head.shape.channels {
        match load_channel(alloc, input, head, channel, dies) {
            Ok(base) => bases.push(base).map_err(|_| ReadStop::Memory)?,
            Err(stop) => return Err(stop),
        }
    }
    Ok(bases)
}

// The same with the dies of a list, of which the drive's are the first.
pub fn load_full<S: Source, D: Die>(
    alloc: Global,
    input: &mut S,
    head: &mut ImageHead,
    dies: &mut Vec<D>,
) -> Result<Vec<ChannelBase>, ReadStop<ImageFault>>
    requires head { IsHead (head_of head.old) }
    requires place { head.old.place < 2 ^ 60 }
    requires dies { AreReady head.old (map D.state dies.old.items) }
    ensures read { Loads (λ bases saved. AreOfImage (head_of head.old) saved bases.items (map D.state dies.new.items))
        (S.left input.old) (S.left input.new) (S.faults input.old) (S.faults input.new) head.old.place head.new.place result
        (read_channels (head_of head.old) head.old.shape.channels []) }
    ensures mounted { OnOk result (AreMounted head.old (map D.state dies.new.items)) }
    ensures loaded { BecomeLoaded 0 (map D.state dies.old.items) (map D.state dies.new.items) result }
    ensures others { drop (die_count head.old) (map D.state dies.new.items)
        ≡ drop (die_count head.old) (map D.state dies.old.items) }
    ensures head { head.new ≡ record head.old { place = head.new.place } }
{
    load_channels(alloc, input, head, dies)
}

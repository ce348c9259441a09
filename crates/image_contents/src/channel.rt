// The contents of one channel.
ghost use Rattle.std.specs.Prelude.{◌≡◌, ◌+◌, ◌*◌, ◌^◌, ◌<◌, ◌≤◌, IfOk, OnErr, OnOk, map};
ghost use Rattle.contents_start.specs.ContentsStart.{AreOfContents};
ghost use Rattle.ssd_formats.specs.ImageContents.{channel_fields, read_channel};
ghost use Rattle.ssd_formats.specs.ImageHead.{IsHead, head_of};
ghost use Rattle.drive_dies.specs.Mounting.{AreDiesOf};
ghost use Rattle.image_contents.specs.DiesLoaded.{BecomeLoaded};
ghost use Rattle.image_contents.specs.Loads.{Loads};

use crate::blocks::read_blocks;
use crate::rows::read_rows;
use channel_base::{base_of, blank_base};
use image_file::{ImageFault, ReadStop};
use onfi_cmd::Die;
use ssd_geo::{ChannelBase, ImageHead, Items, Memory};
use ssd_io::Source;
use std::alloc::Global;

// The contents of a channel of a full image.
fn read_full<S: Source, D: Die>(
    alloc: Global,
    input: &mut S,
    place: &mut u64,
    head: &ImageHead,
    channel: u8,
    dies: &mut [D],
) -> Result<ChannelBase, ReadStop<ImageFault>>
    requires head { IsHead (head_of head.now) }
    requires channel { channel < head.now.shape.channels }
    requires place { place.old < 2 ^ 62 }
    requires dies { AreDiesOf head.now channel (map D.state dies.old) }
    ensures read { Loads (λ base saved. AreOfContents (head_of head.now) channel saved base (map D.state dies.new))
        (S.left input.old) (S.left input.new) (S.faults input.old) (S.faults input.new) place.old place.new result
        (channel_fields (head_of head.now) channel) }
    ensures shape { IfOk result (λ base. base.shape ≡ head.now.shape) }
    ensures loaded { BecomeLoaded (channel * head.now.shape.dies) (map D.state dies.old) (map D.state dies.new) result }
    ensures near { OnOk result ((place.old ≤ place.new) × (place.new ≤ place.old + 2 ^ 41)) }
{
    let mut sum = vec![in alloc; 0; head.shape.word_bytes()].map_err(|_| ReadStop::Memory)?;
    let blocks = match read_blocks(alloc, input, place, head, channel, dies, &mut sum) {
        Ok(blocks) => blocks,
        Err(stop) => return Err(stop),
    };
    let rows = match read_rows(alloc, input, place, &head.shape, &blocks) {
        Ok(rows) => rows,
        Err(stop) => return Err(stop),
    };
    let blocks = Items::new(blocks);
    match base_of(
        alloc,
        head,
        channel,
        blocks,
        Items::new(rows),
        Items::new(sum),
    ) {
        Ok(base) => Ok(base),
        Err(Memory) => Err(ReadStop::Memory),
    }
}

/// What an image tells of a channel: its base, and the cells of its dies, into which they are loaded. The head's place goes
/// on to what follows. Of a blank image nothing is read, and the dies stay blank. After a stop the head is as it was, and the
/// dies have what was loaded so far.
pub fn read_channel<S: Source, D: Die>(
    alloc: Global,
    input: &mut S,
    head: &mut ImageHead,
    channel: u8,
    dies: &mut [D],
) -> Result<ChannelBase, ReadStop<ImageFault>>
    requires head { IsHead (head_of head.old) }
    requires channel { channel < head.old.shape.channels }
    requires place { head.old.place < 2 ^ 62 }
    requires dies { AreDiesOf head.old channel (map D.state dies.old) }
    ensures read { Loads (λ base saved. AreOfContents (head_of head.old) channel saved base (map D.state dies.new))
        (S.left input.old) (S.left input.new) (S.faults input.old) (S.faults input.new) head.old.place head.new.place result
        (read_channel (head_of head.old) channel) }
    ensures shape { IfOk result (λ base. base.shape ≡ head.old.shape) }
    ensures loaded { BecomeLoaded (channel * head.old.shape.dies) (map D.state dies.old) (map D.state dies.new) result }
    ensures head { head.new ≡ record head.old { place = head.new.place } }
    ensures near { OnOk result ((head.old.place ≤ head.new.place) × (head.new.place ≤ head.old.place + 2 ^ 41)) }
    ensures err { OnErr result (head.new ≡ head.old) }
{
    if !head.full {
        return match blank_base(alloc, head, channel) {
            Ok(base) => Ok(base),
            Err(Memory) => Err(ReadStop::Memory),
        };
    }
    let mut place = head.place;
    let base = read_full(alloc, input, &mut place, head, channel, dies)?;
    head.place = place;
    Ok(base)
}

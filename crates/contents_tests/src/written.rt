// Contents that were read are written again.
ghost use Rattle.std.specs.Prelude.{map};
ghost use Rattle.saved_drive.specs.Contents.{AreMounted, HaveImage};
ghost use Rattle.ssd_formats.specs.ImageHead.{head_of};

use crate::images::{CONTENTS, Contents, blank_dies, changed, full_image, read_image};
use contents_file::{PageWork, WriteStop, write_channel};
use onfi_cmd::Die;
use ssd_io::{MemSink, SureSource};
use std::alloc::Global;
use std::test::Fail;

// How the first channel of a drive is written, over all its dies, where the sink has so much room.
fn written<D: Die>(
    alloc: Global,
    drive: &Contents,
    dies: &mut Vec<D>,
    room: usize,
) -> Result<(Result<(), WriteStop>, MemSink), Fail>
    requires mounted { AreMounted drive.now.head (map D.state dies.old.items) }
    requires image { HaveImage (head_of drive.now.head) drive.now.bases.items (map D.state dies.old.items) }
{
    let Some(base) = drive.bases.first() else {
        return Err("no base".into());
    };
    if dies.len() != drive.head.shape.dies as usize {
        return Err("other dies".into());
    }
    let Ok(mut work) = PageWork::new(alloc, &base.shape) else {
        return Err("no room".into());
    };
    let Ok(mut sink) = MemSink::new(alloc, Vec::new(alloc), room) else {
        return Err("no sink".into());
    };
    let result = write_channel(&mut sink, base, dies, &mut work);
    Ok((result, sink))
}

// Superblock 3 was erased more than 2^24 times, and one row is lost.
#[test]
fn contents_that_were_read_are_written(rt: HostRuntime) -> Result<(), Fail> {
    let alloc = rt.alloc();
    let image = changed(alloc, &full_image(alloc)?, 955, &[4, 3, 2, 1])?;
    let image = changed(alloc, &image, 990, &[2])?;
    let mut source = SureSource::new(changed(alloc, &image, 990, &[2])?);
    let mut dies = blank_dies(alloc, 3)?;
    let Ok(drive) = read_image(alloc, &mut source, &mut dies) else {
        return Err("not read".into());
    };
    let (result, sink) = written(alloc, &drive, &mut dies, 2000)?;
    assert_eq!(rt; result, Ok(()));
    assert_eq!(rt; sink.bytes().len(), 898);
    assert!(rt; image.ends_with(sink.bytes()));
    assert_eq!(rt; image.len(), CONTENTS + 898);
    Ok(())
}

// A sink without room fails, and the first bytes are written.
#[test]
fn contents_are_written_as_far_as_there_is_room(rt: HostRuntime) -> Result<(), Fail> {
    let alloc = rt.alloc();
    let image = full_image(alloc)?;
    let mut source = SureSource::new(full_image(alloc)?);
    let mut dies = blank_dies(alloc, 3)?;
    let Ok(drive) = read_image(alloc, &mut source, &mut dies) else {
        return Err("not read".into());
    };
    let (result, sink) = written(alloc, &drive, &mut dies, 100)?;
    assert_eq!(rt; result, Err(WriteStop::WriteFault));
    assert_eq!(rt; sink.bytes().len(), 100);
    assert!(rt; image.get(CONTENTS..CONTENTS + 100) == Some(sink.bytes()));
    Ok(())
}

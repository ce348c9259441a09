//! Heads of images, against bytes and faults worked out by hand.
use super::*;
use ssd_geo::{CellLaw, ImageHead, Items, Shape, Weak};
use ssd_io::{Failed, MemSink, MemSource, Source, SureSource};
use std::alloc::Global;
use std::process::Abort;
use std::test::Fail;

// A blank image of 1 channel with 3 dies, 4 superblocks and pages of 48 bytes, without weak or bad blocks.
fn image() -> &'static [u8] {
    b"SSDIMG01\x01\x03\x04\x00\x02\x00\x40\x00\
      \x03\x06\x02\x08\x08\x00\x00\x00\x08\x00\x00\x00\x01\x00\x00\x00\
      \x00\x00\x00\x00\x00\x00\x00\x00\x9c\xff\x64\x00\x00\x00\x0a\x00\
      \x00\x00\xc4\xff\x00\x00\x01\x00\xff\xff\x01\x00\x00\x00\xff\xff\
      \x05\x00\xff\xff\x07\x00\x00\x00\x00\x00\x00\x00\xff\xff\x0b\x00\
      \x03\x00\x01\x00\xff\xff\x00\x00\x00\x00\x00\x00\x00"
}

// The same image with 4 rows in place of 8.
fn image_of_few_rows(alloc: Global) -> Result<Vec<u8>, Fail> {
    image_with(alloc, image(), 24, &[4])
}

// Two weak blocks and a bad one, and that the image is full.
fn lists() -> &'static [u8] {
    b"\x02\x00\x00\x00\x02\x00\x07\x00\x00\x00\x00\x02\x01\x00\x00\x00\x00\x01\x01\x00\
      \x00\x00\x03\x00\x01"
}

// The same image in the second version, with so many codewords a page of this lifting size.
fn second_version(alloc: Global, image: &[u8], words: u8, lifting: u8) -> Result<Vec<u8>, Fail> {
    let mut bytes = Vec::new(alloc);
    bytes.extend_from_slice(b"SSDIMG02")?;
    bytes.push(words)?;
    for byte in image.iter().skip(8) {
        bytes.push(*byte)?;
    }
    image_with(alloc, &bytes, 15, &[lifting])
}

// Its shape, with so many codewords a page and rows.
fn shape_with(words: u8, lifting: u16, rows: u32) -> Result<Shape, Fail> {
    let shape = Shape::new(words, 1, 3, 4, 2, lifting, 3, 6, 8, rows)?;
    Ok(shape)
}

// Its head, with this shape and these weak and bad blocks.
fn head_with(
    alloc: Global,
    shape: Shape,
    weak: Vec<Weak>,
    bad: Vec<(u8, u16)>,
    full: bool,
    place: u64,
) -> Result<ImageHead, Fail> {
    let entries = vec![in alloc; 0, 1, -1, 1, 0, -1, 5, -1, 7, 0, 0, 0, -1, 11, 3, 1, -1, 0]?;
    Ok(ImageHead {
        shape,
        read_levels: Items::new(vec![in alloc; 0, -60]?),
        iterations: 8,
        law: CellLaw {
            erased: -100,
            programmed: 100,
            spread: 0,
            seed: 1,
        },
        step: 10,
        session: 0,
        entries: Items::new(entries),
        weak: Items::new(weak),
        bad: Items::new(bad),
        full,
        place,
    })
}

// An image with other bytes from a place on.
fn image_with(alloc: Global, image: &[u8], at: usize, others: &[u8]) -> Result<Vec<u8>, Fail> {
    let mut bytes = Vec::new(alloc);
    for byte in image.iter().take(at) {
        bytes.push(*byte)?;
    }
    bytes.extend_from_slice(others)?;
    for byte in image.iter().skip(at).skip(others.len()) {
        bytes.push(*byte)?;
    }
    Ok(bytes)
}

// Whether a head is read from these bytes and a 7 behind them, and the 7 is left.
fn is_read(alloc: Global, bytes: &[u8], want: &ImageHead) -> Result<bool, Fail> {
    let mut source = SureSource::new(image_with(alloc, bytes, bytes.len(), &[7])?);
    let Ok(head) = read_head(alloc, &mut source) else {
        return Ok(false);
    };
    let mut next = [0; 2];
    let left = source.read(&mut next) == Ok(1) && next == [7, 0];
    Ok(left && head == *want)
}

// Why no head is read, or nothing where one is.
fn stop_of<S: Source>(alloc: Global, source: &mut S) -> Option<ReadStop<ImageFault>> {
    read_head(alloc, source).err()
}

// The first fault in these bytes and its place, or nothing where there is none.
fn fault_of(alloc: Global, bytes: Vec<u8>) -> Option<(u64, ImageFault)> {
    match stop_of(alloc, &mut SureSource::new(bytes)) {
        Some(ReadStop::Fault { at, fault }) => Some((at, fault)),
        _ => None,
    }
}

#[test]
fn a_head_is_read_and_what_follows_is_left(rt: HostRuntime) -> Result<(), Fail> {
    let alloc = rt.alloc();
    let shape = shape_with(1, 64, 8)?;
    let want = head_with(alloc, shape, Vec::new(alloc), Vec::new(alloc), false, 93)?;
    assert!(rt; is_read(alloc, image(), &want)?);
    Ok(())
}

#[test]
fn a_head_of_the_second_version_is_read(rt: HostRuntime) -> Result<(), Fail> {
    let alloc = rt.alloc();
    for (words, lifting) in [(1, 64), (2, 32), (4, 16)] {
        let image = second_version(alloc, image(), words, lifting)?;
        let shape = shape_with(words, lifting as u16, 8)?;
        let want = head_with(alloc, shape, Vec::new(alloc), Vec::new(alloc), false, 94)?;
        assert!(rt; is_read(alloc, &image, &want)?, "of {words}");
    }
    Ok(())
}

#[test]
fn other_numbers_of_codewords_are_refused(rt: HostRuntime) -> Result<(), Fail> {
    let alloc = rt.alloc();
    for words in [0, 3, 5, 255] {
        let bytes = second_version(alloc, image(), words, 64)?;
        let fault = fault_of(alloc, bytes);
        assert_eq!(rt; fault, Some((8, ImageFault::Range)), "of {words}");
    }
    Ok(())
}

#[test]
fn weak_and_bad_blocks_are_read(rt: HostRuntime) -> Result<(), Fail> {
    let alloc = rt.alloc();
    let few_rows = image_of_few_rows(alloc)?;
    let weak = vec![in alloc;
        Weak {
            channel: 0,
            die: 0,
            sb: 2,
            from: 7
        },
        Weak {
            channel: 0,
            die: 2,
            sb: 1,
            from: 1 << 24
        },
    ]?;
    let shape = shape_with(1, 64, 4)?;
    let want = head_with(alloc, shape, weak, vec![in alloc; (0, 3)]?, true, 113)?;
    let image = image_with(alloc, &few_rows, 88, lists())?;
    assert!(rt; is_read(alloc, &image, &want)?);
    Ok(())
}

#[test]
fn a_short_head_ends_at_its_length(rt: HostRuntime) -> Result<(), Fail> {
    let alloc = rt.alloc();
    for image in [
        image().to_vec(alloc)?,
        second_version(alloc, image(), 1, 64)?,
    ] {
        for n in 0..image.len() {
            let fault = fault_of(alloc, image[..n].to_vec(alloc)?);
            assert_eq!(rt; fault, Some((n as u64, ImageFault::Short)));
        }
    }
    Ok(())
}

// Bytes in place of others from a place on, and the first fault and its place.
fn first_faults() -> [(u8, &'static [u8], u8, ImageFault); 10] {
    [
        (0, &[0x54], 0, ImageFault::Magic),
        (7, &[0x33], 0, ImageFault::Magic),
        (8, &[0], 8, ImageFault::Range),
        (16, &[2], 16, ImageFault::Range),
        (17, &[3], 17, ImageFault::Range),
        (42, &[0x9c, 0xff], 42, ImageFault::Range),
        (52, &[0x40, 0], 52, ImageFault::Entry),
        (60, &[1, 0], 60, ImageFault::Diagonal),
        (58, &[0xff, 0xff], 58, ImageFault::Parity),
        (92, &[2], 92, ImageFault::Range),
    ]
}

// The same of the weak and bad blocks, which begin at place 88.
fn first_faults_in_lists() -> [(u8, &'static [u8], u8, ImageFault); 9] {
    [
        (88, &[1, 0, 0, 3, 0, 0, 7, 0, 0, 0], 91, ImageFault::Range),
        (88, &[1, 0, 0, 0, 4, 0, 7, 0, 0, 0], 92, ImageFault::Range),
        (
            88,
            &[2, 0, 0, 1, 0, 0, 7, 0, 0, 0, 0, 0, 3, 0, 7, 0, 0, 0],
            98,
            ImageFault::Order,
        ),
        (
            88,
            &[2, 0, 0, 1, 0, 0, 7, 0, 0, 0, 0, 1, 0, 0, 8, 0, 0, 0],
            98,
            ImageFault::Order,
        ),
        (
            88,
            &[2, 0, 0, 1, 0, 0, 7, 0, 0, 0, 0, 0, 3, 0, 7, 0, 0],
            105,
            ImageFault::Short,
        ),
        (88, &[0, 0, 1, 0, 0, 1, 0, 0], 93, ImageFault::Range),
        (
            88,
            &[0, 0, 2, 0, 0, 0, 3, 0, 0, 0, 3, 0],
            96,
            ImageFault::Order,
        ),
        (
            88,
            &[0, 0, 2, 0, 0, 0, 2, 0, 0, 0, 3, 0],
            96,
            ImageFault::Range,
        ),
        (88, &[0, 0, 0, 0, 2], 92, ImageFault::Range),
    ]
}

// Behind the text at its front each field stands one place later in the second version.
fn name_first_faults<R: Abort>(
    rt: &R,
    alloc: Global,
    cases: &[(u8, &'static [u8], u8, ImageFault)],
) -> Result<(), Fail> {
    let few_rows = image_of_few_rows(alloc)?;
    let second = second_version(alloc, &few_rows, 1, 64)?;
    for (from, others, at, fault) in cases {
        let (from, at, fault) = (*from, *at as u64, *fault);
        let later = if from < 8 { 0 } else { 1 };
        let bytes = image_with(alloc, &few_rows, from as usize, others)?;
        assert_eq!(rt; fault_of(alloc, bytes), Some((at, fault)), "from {from}");
        let bytes = image_with(alloc, &second, from as usize + later, others)?;
        let at = at + later as u64;
        assert_eq!(rt; fault_of(alloc, bytes), Some((at, fault)), "from {from}");
    }
    Ok(())
}

#[test]
fn first_faults_are_named(rt: HostRuntime) -> Result<(), Fail> {
    name_first_faults(&rt, rt.alloc(), &first_faults())
}

#[test]
fn first_faults_in_lists_are_named(rt: HostRuntime) -> Result<(), Fail> {
    name_first_faults(&rt, rt.alloc(), &first_faults_in_lists())
}

// The first bad superblock leaves no room for 8 rows.
#[test]
fn rows_that_no_longer_fit_are_refused(rt: HostRuntime) -> Result<(), Fail> {
    let alloc = rt.alloc();
    let bytes = image_with(alloc, image(), 88, &[0, 0, 1, 0, 0, 0, 0, 0])?;
    assert_eq!(rt; fault_of(alloc, bytes), Some((92, ImageFault::Range)));
    Ok(())
}

#[test]
fn a_failed_read_is_answered(rt: HostRuntime) -> Result<(), Fail> {
    let alloc = rt.alloc();
    for call in [1, 2, 24] {
        let mut source = MemSource::new(image().to_vec(alloc)?, vec![in alloc; call]?);
        assert_eq!(rt; stop_of(alloc, &mut source), Some(ReadStop::ReadFault));
    }
    Ok(())
}

// Writes the head that these bytes hold, or answers nothing where they hold none.
fn rewritten(alloc: Global, bytes: Vec<u8>, sink: &mut MemSink) -> Option<Result<(), Failed>> {
    let head = read_head(alloc, &mut SureSource::new(bytes)).ok()?;
    Some(write_head(sink, &head))
}

// The sink has room for so many bytes, and one of its calls fails, counted from 1.
#[test]
fn a_head_is_written_in_the_second_version(rt: HostRuntime) -> Result<(), Fail> {
    let alloc = rt.alloc();
    let few_rows = image_of_few_rows(alloc)?;
    for (room, call, want, length) in [
        (120, 0, Ok(()), 114),
        (114, 0, Ok(()), 114),
        (113, 0, Err(Failed), 113),
        (0, 0, Err(Failed), 0),
        (120, 3, Err(Failed), 49),
    ] {
        let bytes = image_with(alloc, &few_rows, 88, lists())?;
        let second = second_version(alloc, &bytes, 1, 64)?;
        let mut sink = MemSink::new(alloc, vec![in alloc; call]?, room)?;
        assert_eq!(rt; rewritten(alloc, bytes, &mut sink), Some(want));
        assert!(rt; second.starts_with(sink.bytes()));
        assert_eq!(rt; sink.bytes().len(), length);
    }
    Ok(())
}

// Heads of the second version are written as they were read, and so are read again.
#[test]
fn what_was_written_is_read_again(rt: HostRuntime) -> Result<(), Fail> {
    let alloc = rt.alloc();
    for (words, lifting) in [(1, 64), (2, 32), (4, 16)] {
        let image = second_version(alloc, image(), words, lifting)?;
        let mut sink = MemSink::new(alloc, Vec::new(alloc), 94)?;
        assert_eq!(rt; rewritten(alloc, image.clone()?, &mut sink), Some(Ok(())));
        assert_eq!(rt; sink.bytes(), &image[..]);
        let shape = shape_with(words, lifting as u16, 8)?;
        let want = head_with(alloc, shape, Vec::new(alloc), Vec::new(alloc), false, 94)?;
        assert!(rt; is_read(alloc, sink.bytes(), &want)?, "of {words}");
    }
    Ok(())
}

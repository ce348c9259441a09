// A full image of one channel with three dies and four superblocks of two pages of 48 bytes: one page is written, by row 5
// into slot 0 of superblock 0, on die 1. It was put together apart, by a plain program.
ghost use Rattle.std.specs.Prelude.{◌<◌, IfOk, map};
ghost use Rattle.drive_dies.specs.Mounting.{AllTell};
ghost use Rattle.saved_drive.specs.Contents.{AreMounted, HaveImage};
ghost use Rattle.ssd_formats.specs.ImageHead.{IsHead, head_of};

use blank_drive::mount_drive;
use die_model::SimDie;
use drive_contents::load_contents;
use image_file::{ImageFault, ReadStop, read_head};
use onfi_cmd::Die;
use ssd_geo::{ChannelBase, ImageHead};
use ssd_io::Source;
use std::alloc::Global;
use std::test::Fail;

// Where the contents begin, and the sum and the rows in them.
pub(crate) const CONTENTS: usize = 93;

pub(crate) const SUM: usize = 876;

pub(crate) const ROWS: usize = 969;

// The word of the page.
pub(crate) const WORD: [u8; 48] = [
    0, 0, 0, 0, 0, 0, 0, 0, 5, 0, 0, 0, 0x50, 0x47, 0x45, 0x31, 1, 2, 0, 0, 0, 0, 0, 0, 0x46, 0, 0,
    0xea, 0, 0x8b, 4, 0xba, 0x21, 0, 0, 0x75, 0x28, 0xe6, 0xa0, 0xc5, 0x63, 0, 0, 0x9f, 0x28, 0x6d,
    0xa4, 0x7d,
];

// The head, and whether the image is full.
fn head_bytes() -> &'static [u8] {
    b"SSDIMG01\x01\x03\x04\x00\x02\x00\x40\x00\
      \x03\x06\x02\x08\x08\x00\x00\x00\x08\x00\x00\x00\x01\x00\x00\x00\
      \x00\x00\x00\x00\x01\x00\x00\x00\x9c\xff\x64\x00\x00\x00\x0a\x00\
      \x00\x00\xc4\xff\x00\x00\x01\x00\xff\xff\x01\x00\x00\x00\xff\xff\
      \x05\x00\xff\xff\x07\x00\x00\x00\x00\x00\x00\x00\xff\xff\x0b\x00\
      \x03\x00\x01\x00\xff\xff\x00\x00\x00\x00\x00\x00\x01"
}

// The level of a cell of the page: erased where the bit of the word is 1.
pub(crate) fn level_of(cell: usize) -> i16
    requires { cell < 384 }
{
    if WORD[cell / 8] >> (cell % 8) & 1 == 1 {
        -100
    } else {
        100
    }
}

// Puts some bytes behind others.
pub(crate) fn put(bytes: &mut Vec<u8>, more: &[u8]) -> Result<(), Fail> {
    bytes.extend_from_slice(more)?;
    Ok(())
}

// The bytes of the image.
pub(crate) fn full_image(alloc: Global) -> Result<Vec<u8>, Fail> {
    let mut bytes = Vec::new(alloc);
    put(&mut bytes, head_bytes())?;
    put(&mut bytes, &[1, 0, 0, 0, 0, 1, 0, 0, 0, 0, 0, 1, 0, 0, 0])?;
    for cell in 0..384 {
        put(&mut bytes, &level_of(cell).to_le_bytes())?;
    }
    put(&mut bytes, &WORD)?;
    for _ in 0..3 {
        put(&mut bytes, &[0; 15])?;
    }
    put(&mut bytes, &[0; 5])?;
    put(&mut bytes, &[1, 0, 0, 0, 0, 0, 0, 0, 0, 0, 0, 0, 0, 0, 0])?;
    put(&mut bytes, &[0; 2])?;
    Ok(bytes)
}

// The bytes between two places.
pub(crate) fn between(
    alloc: Global,
    bytes: &[u8],
    from: usize,
    to: usize,
) -> Result<Vec<u8>, Fail> {
    let mut made = Vec::new(alloc);
    for byte in bytes.iter().take(to).skip(from) {
        made.push(*byte)?;
    }
    Ok(made)
}

// The same bytes with others from a place on.
pub(crate) fn changed(
    alloc: Global,
    bytes: &[u8],
    at: usize,
    others: &[u8],
) -> Result<Vec<u8>, Fail> {
    let mut made = Vec::new(alloc);
    for byte in bytes.iter().take(at) {
        made.push(*byte)?;
    }
    put(&mut made, others)?;
    for byte in bytes.iter().skip(at).skip(others.len()) {
        made.push(*byte)?;
    }
    Ok(made)
}

// An image of two such channels. On the second superblock 3 was erased 9 times.
pub(crate) fn two_channels(alloc: Global) -> Result<Vec<u8>, Fail> {
    let image = full_image(alloc)?;
    let other = changed(alloc, &image, 955, &[9])?;
    let mut bytes = changed(alloc, &image, 8, &[2])?;
    put(&mut bytes, &between(alloc, &other, CONTENTS, 991)?)?;
    Ok(bytes)
}

// Simulated dies that aren't mounted yet.
pub(crate) fn blank_dies(alloc: Global, count: u8) -> Result<Vec<SimDie>, Fail>
    ensures { IfOk result (λ dies. AllTell (map ⟦<SimDie as Die>⟧.state dies.items)) }
{
    let mut dies = Vec::new(alloc);
    for _ in 0..count {
        dies.push(SimDie::new())?;
    }
    Ok(dies)
}

// What was read of an image.
#[derive(Drop)]
pub(crate) struct Contents {
    pub(crate) head: ImageHead,
    pub(crate) bases: Vec<ChannelBase>,
}

// Reads the image of a source, whose dies are the first of these. They are mounted first.
pub(crate) fn read_image<S: Source, D: Die>(
    alloc: Global,
    source: &mut S,
    dies: &mut Vec<D>,
) -> Result<Contents, ReadStop<ImageFault>>
    requires { AllTell (map D.state dies.old.items) }
    ensures mounted { IfOk result (λ read. AreMounted read.head (map D.state dies.new.items)) }
    ensures head { IfOk result (λ read. IsHead (head_of read.head)) }
    ensures image { IfOk result (λ read. HaveImage (head_of read.head) read.bases.items (map D.state dies.new.items)) }
{
    let mut head = read_head(alloc, source)?;
    let count = head.shape.channels as usize * head.shape.dies as usize;
    if dies.len() < count || mount_drive(alloc, &head, dies).is_err() {
        return Err(ReadStop::Memory);
    }
    let bases = load_contents(alloc, source, &mut head, dies)?;
    Ok(Contents { head, bases })
}

// How many pages of a block of a die are programmed, or nothing where the drive has no such block.
pub(crate) fn programmed_on<D: Die>(
    head: &ImageHead,
    dies: &[D],
    number: usize,
    sb: u16,
) -> Option<u16>
    requires { AreMounted head.now (map D.state dies.now) }
{
    let count = head.shape.channels as usize * head.shape.dies as usize;
    if number >= count || sb >= head.shape.superblocks {
        return None;
    }
    Some(dies[number].programmed(sb))
}

// The levels of a page of a die, or nothing where the drive has no such page.
pub(crate) fn levels_on<D: Die>(
    alloc: Global,
    head: &ImageHead,
    dies: &mut [D],
    number: usize,
    sb: u16,
    page: u16,
) -> Result<Vec<i16>, Fail>
    requires { AreMounted head.now (map D.state dies.old) }
{
    let count = head.shape.channels as usize * head.shape.dies as usize;
    if number >= count || sb >= head.shape.superblocks || page >= head.shape.pages {
        return Err("no such page".into());
    }
    let mut levels = vec![in alloc; 0; 8 * head.shape.word_bytes()]?;
    match dies[number].levels(sb, page, &mut levels) {
        Ok(()) => Ok(levels),
        Err(_) => Err("no levels".into()),
    }
}

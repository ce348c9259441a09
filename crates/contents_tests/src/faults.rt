// The first fault of contents, and why they weren't read.
ghost use Rattle.std.specs.Prelude.{IfOk, map};
ghost use Rattle.drive_dies.specs.Mounting.{AllTell};

use crate::images::{ROWS, SUM, between, changed, full_image, put, read_image, two_channels};
use die_model::{ListedFaults, SimDie};
use image_file::{ImageFault, ReadStop};
use onfi_cmd::Die;
use ssd_io::{MemSource, Source, SureSource};
use std::alloc::Global;
use std::process::Abort;
use std::test::Fail;

// Dies of which each fails at one of its loads, counted from 1.
fn failing_dies(alloc: Global, loads: &[u64]) -> Result<Vec<ListedFaults<SimDie>>, Fail>
    ensures { IfOk result (λ dies. AllTell (map ⟦<ListedFaults<SimDie> as Die>⟧.state dies.items)) }
{
    let mut dies = Vec::new(alloc);
    for load in loads {
        let listed = vec![in alloc; *load]?;
        let inner = SimDie::new();
        let die = ListedFaults::new(inner, Vec::new(alloc), listed);
        dies.push(die)?;
    }
    Ok(dies)
}

// Why an image isn't read, or nothing where it is.
fn stop_of<S: Source>(
    alloc: Global,
    source: &mut S,
    loads: &[u64],
) -> Result<Option<ReadStop<ImageFault>>, Fail> {
    let mut dies = failing_dies(alloc, loads)?;
    Ok(read_image(alloc, source, &mut dies).err())
}

// The first fault in these bytes and its place, or nothing where there is none.
fn fault_of(alloc: Global, bytes: Vec<u8>) -> Result<Option<(u64, ImageFault)>, Fail> {
    match stop_of(alloc, &mut SureSource::new(bytes), &[0; 6])? {
        Some(ReadStop::Fault { at, fault }) => Ok(Some((at, fault))),
        _ => Ok(None),
    }
}

// At each field's first byte, within it and at its last.
#[test]
fn short_contents_end_at_their_length(rt: HostRuntime) -> Result<(), Fail> {
    let alloc = rt.alloc();
    let image = full_image(alloc)?;
    for n in [
        93, 94, 97, 98, 101, 102, 107, 108, 109, 875, 876, 900, 923, 924, 938, 939, 968, 969, 974,
        975, 981, 988, 989, 990,
    ] {
        let fault = fault_of(alloc, between(alloc, &image, 0, n)?)?;
        assert_eq!(rt; fault, Some((n as u64, ImageFault::Short)));
    }
    assert_eq!(rt; fault_of(alloc, image)?, None);
    Ok(())
}

// Bytes in place of others from a place on, and the first fault and its place.
type Faulty = (usize, &'static [u8], usize, ImageFault);

// Faults of a superblock before its pages.
fn faults_before_pages() -> [Faulty; 13] {
    [
        // Its state: there is none with the number, or another superblock is the frontier.
        (93, &[5], 93, ImageFault::State),
        (924, &[1], 924, ImageFault::State),
        // Its erases: one more than 2^31.
        (94, &[1, 0, 0, 0x80], 94, ImageFault::Range),
        // Its used slots: none or all of a frontier, one of a free superblock, five of a bad one.
        (98, &[0], 98, ImageFault::Count),
        (98, &[4], 98, ImageFault::Count),
        (98, &[1, 0, 1], 98, ImageFault::Count),
        (929, &[1], 929, ImageFault::Count),
        (924, &[3, 0, 0, 0, 0, 5], 929, ImageFault::Count),
        // The programmed pages of a die: one that isn't due, one that lacks, three of two in a bad superblock.
        (102, &[1], 102, ImageFault::Count),
        (104, &[0], 104, ImageFault::Count),
        (
            924,
            &[3, 0, 0, 0, 0, 0, 0, 0, 0, 0, 0, 3],
            935,
            ImageFault::Count,
        ),
        // Of two faults the first is named.
        (93, &[5, 1, 0, 0, 0x80], 93, ImageFault::State),
        (98, &[1, 0, 0, 0, 1, 0, 0, 0], 102, ImageFault::Count),
    ]
}

// Faults of levels, of the sum and of rows.
fn later_faults() -> [Faulty; 9] {
    [
        // The first and the last level of a page.
        (108, &[0xff, 0xbf], 108, ImageFault::Range),
        (874, &[0, 0x40], 874, ImageFault::Range),
        // The sum of the open stripe is no codeword.
        (SUM, &[1], SUM, ImageFault::Sum),
        (SUM + 47, &[0x7c], SUM, ImageFault::Sum),
        // No such kind of row, no such superblock, a slot that isn't used.
        (ROWS, &[3], ROWS, ImageFault::Row),
        (974, &[1, 4], 974, ImageFault::Row),
        (974, &[1, 0, 0, 1], 974, ImageFault::Row),
        (974, &[1, 1, 0, 0], 974, ImageFault::Row),
        // Two rows name one slot: the second is wrong.
        (
            989,
            &[1, 0, 0, 0, 0, 0, 0, 0, 0, 0, 0, 0, 0, 0, 0],
            989,
            ImageFault::Row,
        ),
    ]
}

// Names the first faults of a table.
fn name_faults<R: Abort>(rt: &R, alloc: Global, cases: &[Faulty]) -> Result<(), Fail> {
    let image = full_image(alloc)?;
    for (from, others, at, fault) in cases {
        let bytes = changed(alloc, &image, *from, others)?;
        let found = fault_of(alloc, bytes)?;
        assert_eq!(rt; found, Some((*at as u64, *fault)), "from {from}");
    }
    Ok(())
}

#[test]
fn first_faults_before_pages_are_named(rt: HostRuntime) -> Result<(), Fail> {
    name_faults(&rt, rt.alloc(), &faults_before_pages())
}

#[test]
fn first_faults_behind_them_are_named(rt: HostRuntime) -> Result<(), Fail> {
    name_faults(&rt, rt.alloc(), &later_faults())
}

// A level that is whole comes before the end of the input, and one that isn't whole after it. A slot that a row names again
// comes before the row's serial, which lacks, and a superblock out of range before the index.
#[test]
fn a_fault_comes_before_the_end(rt: HostRuntime) -> Result<(), Fail> {
    let alloc = rt.alloc();
    let image = full_image(alloc)?;
    for (from, others, length, at, fault) in [
        (200, &[0xff, 0xbf][..], 202, 200, ImageFault::Range),
        (200, &[0xff, 0xbf], 201, 201, ImageFault::Short),
        (989, &[1, 0, 0, 0, 0, 0, 0, 9], 997, 989, ImageFault::Row),
        (989, &[1, 4, 0], 992, 989, ImageFault::Row),
        (974, &[1, 1, 0], 977, 977, ImageFault::Short),
    ] {
        let bytes = changed(alloc, &image, from, others)?;
        let found = fault_of(alloc, between(alloc, &bytes, 0, length)?)?;
        assert_eq!(rt; found, Some((at as u64, fault)), "from {from}");
    }
    Ok(())
}

// A factory bad superblock must be bad.
#[test]
fn a_listed_superblock_is_bad(rt: HostRuntime) -> Result<(), Fail> {
    let alloc = rt.alloc();
    let image = full_image(alloc)?;
    // Superblock 1 is listed, and four rows are left. All that follows stands four bytes later.
    let few = changed(alloc, &image, 24, &[4])?;
    let mut bytes = between(alloc, &few, 0, 90)?;
    put(&mut bytes, &[1, 0, 0, 0, 1, 0])?;
    put(&mut bytes, &between(alloc, &few, 92, 973)?)?;
    assert_eq!(rt;
        fault_of(alloc, bytes.clone()?)?,
        Some((928, ImageFault::State))
    );
    let bad = changed(alloc, &bytes, 928, &[3])?;
    assert_eq!(rt; fault_of(alloc, bad)?, None);
    Ok(())
}

// The third call of the source gives the contents' first byte or comes later.
#[test]
fn a_failed_read_is_answered(rt: HostRuntime) -> Result<(), Fail> {
    let alloc = rt.alloc();
    for call in [30, 36, 40, 50] {
        let mut source = MemSource::new(full_image(alloc)?, vec![in alloc; call]?);
        let stop = stop_of(alloc, &mut source, &[0; 3])?;
        assert_eq!(rt; stop, Some(ReadStop::ReadFault), "at {call}");
    }
    Ok(())
}

// A die's first load is its mount. Then come four blocks, and on die 1 a page between the first two.
#[test]
fn a_failed_die_is_named(rt: HostRuntime) -> Result<(), Fail> {
    let alloc = rt.alloc();
    for (loads, die) in [
        ([2, 0, 0], Some(0)),
        ([0, 2, 0], Some(1)),
        ([0, 3, 0], Some(1)),
        ([0, 0, 5], Some(2)),
        ([5, 6, 5], Some(0)),
        ([6, 7, 6], None),
    ] {
        let mut source = SureSource::new(full_image(alloc)?);
        let stop = stop_of(alloc, &mut source, &loads)?;
        assert_eq!(rt; stop, die.map(|die| ReadStop::DieFailed { die }));
    }
    Ok(())
}

// The dies of the second channel come behind those of the first, and its bytes behind the first's.
#[test]
fn stops_of_the_second_channel_are_named(rt: HostRuntime) -> Result<(), Fail> {
    let alloc = rt.alloc();
    for (loads, die) in [
        ([0, 0, 0, 2, 0, 0], 3),
        ([0, 0, 0, 0, 3, 0], 4),
        ([0, 0, 0, 0, 7, 5], 5),
    ] {
        let mut source = SureSource::new(two_channels(alloc)?);
        let stop = stop_of(alloc, &mut source, &loads)?;
        assert_eq!(rt; stop, Some(ReadStop::DieFailed { die }));
    }
    let image = two_channels(alloc)?;
    for (from, others, fault) in [
        (991, &[5][..], ImageFault::State),
        (1006, &[0xff, 0xbf], ImageFault::Range),
        (1887, &[3], ImageFault::Row),
    ] {
        let bytes = changed(alloc, &image, from, others)?;
        let found = fault_of(alloc, bytes)?;
        assert_eq!(rt; found, Some((from as u64, fault)), "from {from}");
    }
    let short = between(alloc, &image, 0, 1888)?;
    assert_eq!(rt; fault_of(alloc, short)?, Some((1888, ImageFault::Short)));
    assert_eq!(rt; fault_of(alloc, image)?, None);
    Ok(())
}

//! Drives that are saved: the images were worked out by hand, but for the levels and the sum of a page.
use crate::drives::{Faults, IMAGE, SAME, outcome, outcome_over};
use ssd_top::Status;
use std::alloc::Global;
use std::test::Fail;

const TRACE: &[u8] = b"trace 1 1\n0 write 5 x0102\n0 read 5\n";

const SAVED_PAGE_IS_READ: &[u8] = b"channel 0 3
0 0.0 look 5 page 0.0 0 open
1 0.0 sense 0 1.0.0 0
2 0.0 leave 0
actor 0 1
0 data 0 0102000000000000
summary
write 0 0 0 0
read 1 0 0 0
trim 0
move 0 condemn 0 changed 0 stay 0
pick 0 erase 0 bad 0 fault 0
sense 1
rung 1 0 0 0
hint 0 0 0
end
";

// How many bytes of the image stand before the levels of the page: the head, and of the first superblock its state, its numbers
// and those of each die's pages.
const BEFORE_LEVELS: usize = 94 + 9 + 6;

// The head in the second version, with this session and this byte for its contents.
fn head_with(alloc: Global, session: u8, full: u8) -> Result<Vec<u8>, Fail> {
    let mut head = Vec::from_slice(alloc, &IMAGE[..7])?;
    head.extend_from_slice(b"2\x01")?;
    head.extend_from_slice(&IMAGE[8..36])?;
    head.push(session)?;
    head.extend_from_slice(&IMAGE[37..92])?;
    head.push(full)?;
    Ok(head)
}

// The drive after the trace, saved.
fn one_page(alloc: Global) -> Result<Vec<u8>, Fail> {
    let (status, output) = outcome(alloc, "save", SAME, TRACE, 0, 99, 4096)?;
    if status != Status::Done {
        return Err("the drive isn't saved".into());
    }
    Ok(Vec::from_slice(alloc, output.bytes())?)
}

// Four free superblocks of 15 bytes each, and eight empty rows of a byte.
#[test]
fn a_blank_drive_is_saved(rt: HostRuntime) -> Result<(), Fail> {
    let mut want = head_with(rt.alloc(), 1, 1)?;
    want.extend_from_slice(&[0; 68])?;
    let (status, output) = outcome(rt.alloc(), "save", SAME, b"trace 1 1\n", 0, 99, 4096)?;
    assert_eq!(rt; status, Status::Done);
    assert_eq!(rt; output.bytes(), want.as_slice());
    Ok(())
}

// The first superblock is the frontier, one of its slots is used, and the page stands on die 1. The row of page 5 names it.
#[test]
fn a_drive_is_saved_with_its_page(rt: HostRuntime) -> Result<(), Fail> {
    let image = one_page(rt.alloc())?;
    let mut want = head_with(rt.alloc(), 1, 1)?;
    want.extend_from_slice(&[1, 0, 0, 0, 0, 1, 0, 0, 0, 0, 0, 1, 0, 0, 0])?;
    assert_eq!(rt; image.len(), 992);
    assert!(rt; image.starts_with(want.as_slice()));
    let mut rows = Vec::from_slice(rt.alloc(), &[0; 45 + 5])?;
    rows.push(1)?;
    rows.extend_from_slice(&[0; 14 + 2])?;
    assert!(rt; image.ends_with(rows.as_slice()));
    Ok(())
}

// It is read, and blank in the session after its own.
#[test]
fn a_saved_drive_is_served_and_formatted(rt: HostRuntime) -> Result<(), Fail> {
    let image = one_page(rt.alloc())?;
    let mut input = image.clone()?;
    input.extend_from_slice(b"trace 1 1\n0 read 5\n")?;
    let (status, output) = outcome_over(rt.alloc(), "run", input, 0, 99, 4096, &[])?;
    assert_eq!(rt; status, Status::Done);
    assert_eq!(rt; output.bytes(), SAVED_PAGE_IS_READ);
    let (status, output) = outcome_over(rt.alloc(), "format", image, 0, 99, 4096, &[])?;
    assert_eq!(rt; status, Status::Done);
    assert_eq!(rt; output.bytes(), head_with(rt.alloc(), 2, 0)?.as_slice());
    Ok(())
}

#[test]
fn a_stopped_run_is_not_saved(rt: HostRuntime) -> Result<(), Fail> {
    let (status, output) = outcome(rt.alloc(), "save --history=256", SAME, TRACE, 0, 99, 4096)?;
    let channel = 0;
    let length = 1;
    assert_eq!(rt; status, Status::HistoryLimit { channel, length });
    assert_eq!(rt; output.bytes(), b"".as_slice());
    Ok(())
}

// The second call that a die fails is that for the levels of its page, where what stands before them was written. The first is
// its mount, before anything is written.
#[test]
fn a_die_that_fails_is_named(rt: HostRuntime) -> Result<(), Fail> {
    let image = one_page(rt.alloc())?;
    let table: [(u8, &'static [u64], usize); 3] = [
        (1, &[2], BEFORE_LEVELS),
        (1, &[1], 0),
        (2, &[1], 0),
    ];
    for (die, loads, most) in table {
        let faults = [Faults {
            die,
            runs: &[],
            loads,
        }];
        let mut input = Vec::from_slice(rt.alloc(), &IMAGE)?;
        input.extend_from_slice(TRACE)?;
        let (status, output) = outcome_over(rt.alloc(), "save", input, 0, 99, 4096, &faults)?;
        assert_eq!(rt; status, Status::DieFailed { die });
        assert!(rt; image.starts_with(output.bytes()));
        assert!(rt; output.bytes().len() <= most);
    }
    Ok(())
}

// A sink that fails gets a front of the image, and one with little room gets what finds room.
#[test]
fn a_failing_sink_gets_a_front_of_the_image(rt: HostRuntime) -> Result<(), Fail> {
    let image = one_page(rt.alloc())?;
    for (writes, room, count) in [(1, 4096, 0), (99, 1, 1), (99, 500, 500), (99, 991, 991)] {
        let (status, output) = outcome(rt.alloc(), "save", SAME, TRACE, 0, writes, room)?;
        assert_eq!(rt; status, Status::WriteFault);
        assert_eq!(rt; output.bytes().len(), count);
        assert!(rt; image.starts_with(output.bytes()));
    }
    Ok(())
}

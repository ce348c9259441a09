// Runs of a drive whose image has contents.
use crate::drives::{Faults, IMAGE, outcome_over};
use image_file::ImageFault;
use ssd_top::Status;
use std::alloc::Global;
use std::test::Fail;

const TRACE: &[u8] = b"trace 1 1\n0 read 2\n0 write 2 x0102\n0 read 2\n0 read 5\n";

// Superblock 0 was erased before, so the first write goes to the next one. Row 2 is lost until it is written.
const TEXT: &[u8] = b"channel 0 6
0 0.0 look 2 lost
1 0.1 write 2 1.0
2 0.2 look 2 page 1.0 1 open
3 0.2 sense 2 0.1.0 0
4 0.2 leave 2
5 0.3 look 5 empty
actor 0 4
0 uncorrectable
1 ok
2 data 0 0102000000000000
3 empty
summary
write 1 0 0 0
read 1 1 1 0
trim 0
move 0 condemn 0 changed 0 stay 0
pick 0 erase 0 bad 0 fault 0
sense 1
rung 1 0 0 0
hint 0 0 0
end
";

// The image with contents: its four superblocks are free, and the first was erased 7 times; its eight rows are empty, but for
// row 2, which is lost.
fn full_image(alloc: Global) -> Result<Vec<u8>, Fail> {
    let mut bytes = Vec::from_slice(alloc, &IMAGE)?;
    if let Some(full) = bytes.get_mut(92) {
        *full = 1;
    }
    bytes.extend_from_slice(&[0, 7, 0, 0, 0, 0, 0, 0, 0, 0, 0, 0, 0, 0, 0])?;
    for _ in 0..3 {
        bytes.extend_from_slice(&[0; 15])?;
    }
    bytes.extend_from_slice(&[0, 0, 2, 0, 0, 0, 0, 0])?;
    Ok(bytes)
}

// The status and the output of a command over the full image, with this byte at a place and so many bytes of it, and a trace.
fn outcome_of(
    alloc: Global,
    line: &str,
    change: (usize, u8),
    count: usize,
    faults: &[Faults],
) -> Result<(Status, Vec<u8>), Fail> {
    let mut bytes = full_image(alloc)?;
    if let Some(byte) = bytes.get_mut(change.0) {
        *byte = change.1;
    }
    bytes.truncate(count);
    bytes.extend_from_slice(TRACE)?;
    let (status, output) = outcome_over(alloc, line, bytes, 0, 99, 4096, faults)?;
    Ok((status, Vec::from_slice(alloc, output.bytes())?))
}

#[test]
fn a_full_image_is_served(rt: HostRuntime) -> Result<(), Fail> {
    let (status, text) = outcome_of(rt.alloc(), "run", (92, 1), 161, &[])?;
    assert_eq!(rt; status, Status::Done);
    assert_eq!(rt; text.as_slice(), TEXT);
    Ok(())
}

// The drive is written again, blank and in the second version, with the next session.
#[test]
fn a_full_image_is_formatted(rt: HostRuntime) -> Result<(), Fail> {
    let mut want = Vec::from_slice(rt.alloc(), &IMAGE[..7])?;
    want.extend_from_slice(b"2\x01")?;
    want.extend_from_slice(&IMAGE[8..36])?;
    want.push(1)?;
    want.extend_from_slice(&IMAGE[37..])?;
    let (status, bytes) = outcome_of(rt.alloc(), "format", (92, 1), 161, &[])?;
    assert_eq!(rt; status, Status::Done);
    assert_eq!(rt; bytes, want);
    Ok(())
}

// A fault of the contents comes before one of the trace, and nothing is written.
#[test]
fn contents_have_their_faults(rt: HostRuntime) -> Result<(), Fail> {
    let table = [
        (92, 1, 93, 93, ImageFault::State),
        (93, 5, 161, 93, ImageFault::State),
        (97, 0x81, 161, 94, ImageFault::Range),
        (98, 1, 161, 98, ImageFault::Count),
        (102, 1, 161, 102, ImageFault::Count),
        (155, 3, 161, 155, ImageFault::Row),
    ];
    for (place, byte, count, at, fault) in table {
        for line in ["run", "format"] {
            let (status, text) = outcome_of(rt.alloc(), line, (place, byte), count, &[])?;
            assert_eq!(rt; status, Status::Image { at, fault });
            assert_eq!(rt; text.as_slice(), b"".as_slice());
        }
    }
    Ok(())
}

// A die that fails where its first block is loaded, behind its mount, is named.
#[test]
fn a_load_that_fails_is_answered(rt: HostRuntime) -> Result<(), Fail> {
    let faults = [Faults {
        die: 1,
        runs: &[],
        loads: &[2],
    }];
    for line in ["run", "format"] {
        let (status, text) = outcome_of(rt.alloc(), line, (92, 1), 161, &faults)?;
        assert_eq!(rt; status, Status::DieFailed { die: 1 });
        assert_eq!(rt; text.as_slice(), b"".as_slice());
    }
    Ok(())
}

use crate::gen_into;
use ssd_io::{Failed, MemSink};
use std::test::Fail;

// The first bytes of the number 1, worked out apart: the sizes, the numbers behind them, the seed and the cell law,
// the read levels, and the first 16 entries of the base matrix.
const FIRST: [u8; 88] = [
    83, 83, 68, 73, 77, 71, 48, 49, 2, 4, 16, 0, 16, 0, 0, 2, 8, 73, 4, 20, 0, 16, 0, 0, 160, 2, 0,
    0, 1, 0, 0, 0, 0, 0, 0, 0, 0, 0, 0, 0, 196, 255, 60, 0, 44, 0, 4, 0, 0, 0, 248, 255, 240, 255,
    232, 255, 193, 0, 255, 255, 255, 255, 103, 0, 255, 255, 94, 1, 255, 255, 255, 255, 11, 1, 255,
    255, 255, 255, 185, 1, 255, 255, 128, 0, 255, 255, 255, 255,
];

// The first lines of its trace, and the last, which is an ageing.
const FIRST_LINES: &[u8] = b"trace 1 4\n0 read 185\n1 write 715 g1\n1 read 1164\n";

const LAST_LINES: &[u8] = b"1 write 697 g4093\n1 read 25\n0 age 1 1 11 20\n";

// The bytes of its head, and of all.
const HEAD: usize = 1229;

const ALL: usize = 61_292;

// What `mixed` gives of all of them.
const MIXED: u32 = 1713864135;

// The bytes as the digits of a number to the base 31, modulo 2^32.
fn mixed(bytes: &[u8]) -> u32 {
    let mut number = 0u32;
    for byte in bytes {
        number = number.wrapping_mul(31).wrapping_add(*byte as u32);
    }
    number
}

#[test]
fn the_number_1_gives_its_image_and_trace(rt: HostRuntime) -> Result<(), Fail> {
    let alloc = rt.alloc();
    let mut sink = MemSink::new(alloc, Vec::new(alloc), ALL)?;
    assert_eq!(rt; gen_into(&mut sink, 1), Ok(()));
    let bytes = sink.bytes();
    assert_eq!(rt; bytes.len(), ALL);
    assert!(rt; bytes.starts_with(&FIRST));
    assert!(rt; bytes[HEAD..].starts_with(FIRST_LINES));
    assert!(rt; bytes.ends_with(LAST_LINES));
    assert_eq!(rt; mixed(bytes), MIXED);
    Ok(())
}

// A sink that is full, in the sizes, in the matrix and in the trace, and one whose second and later calls fail.
#[test]
fn a_sink_that_fails_has_a_front(rt: HostRuntime) -> Result<(), Fail> {
    let alloc = rt.alloc();
    for room in [0, 20, 81] {
        let mut sink = MemSink::new(alloc, Vec::new(alloc), room)?;
        assert_eq!(rt; gen_into(&mut sink, 1), Err(Failed), "in {room}");
        assert_eq!(rt; sink.bytes(), &FIRST[..room]);
    }
    let mut sink = MemSink::new(alloc, Vec::new(alloc), HEAD + 12)?;
    assert_eq!(rt; gen_into(&mut sink, 1), Err(Failed));
    assert_eq!(rt; sink.bytes().len(), HEAD + 12);
    assert!(rt; sink.bytes().ends_with(&FIRST_LINES[..12]));
    let mut sink = MemSink::new(alloc, vec![in alloc; 2]?, ALL)?;
    assert_eq!(rt; gen_into(&mut sink, 1), Err(Failed));
    assert_eq!(rt; sink.bytes(), &FIRST[..56]);
    Ok(())
}

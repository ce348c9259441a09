ghost use Rattle.std.specs.Prelude.{◌≡◌, ◌+◌, ◌*◌, ◌<◌, ◌≤◌, length};

use qc_matrix::{Code, CodeFault};
use std::test::Fail;

const SMALL: [i16; 15] = [0, -1, 1, 0, -1, -1, 2, 0, 0, 0, 3, 0, 1, -1, 0];

const WIDE: [i16; 18] = [0, 1, -1, 1, 0, -1, 5, -1, 7, 0, 0, 0, -1, 11, 3, 1, -1, 0];

#[test]
fn small_code_has_its_layers_and_checks(rt: HostRuntime) -> Result<(), Fail> {
    let code = Code::read(rt.alloc(), &SMALL, 3, 5, 4)?;
    assert_eq!(rt; code.mb(), 3);
    assert_eq!(rt; code.nb(), 5);
    assert_eq!(rt; code.z(), 4);
    assert_eq!(rt; code.layer(0), [(0, 0), (2, 1), (3, 0)].as_slice());
    assert_eq!(rt; code.layer(1), [(1, 2), (2, 0), (3, 0), (4, 0)].as_slice());
    assert_eq!(rt; code.layer(2), [(0, 3), (1, 0), (2, 1), (4, 0)].as_slice());
    assert_eq!(rt; code.failed_checks(&[0x01, 0x83, 0x0b]), 0);
    assert_eq!(rt; code.failed_checks(&[0x00, 0x83, 0x0b]), 2);
    assert!(rt; code.is_codeword(&[0x01, 0x83, 0x0b]));
    assert!(rt; !code.is_codeword(&[0x00, 0x83, 0x0b]));
    Ok(())
}

#[test]
fn wide_code_is_read(rt: HostRuntime) -> Result<(), Fail> {
    let code = Code::read(rt.alloc(), &WIDE, 3, 6, 64)?;
    assert_eq!(rt; code.failed_checks(&[0; 48]), 0);
    Ok(())
}

#[test]
fn first_faults_are_named(rt: HostRuntime) {
    let cases = [
        (0, -2, CodeFault::EntryRange { row: 0, col: 0 }),
        (17, 64, CodeFault::EntryRange { row: 2, col: 5 }),
        (3, -1, CodeFault::ParityColumn { row: 0 }),
        (9, 2, CodeFault::ParityColumn { row: 1 }),
        (9, -1, CodeFault::ParityColumn { row: 2 }),
        (15, 2, CodeFault::ParityColumn { row: 2 }),
        (4, 1, CodeFault::Diagonal { row: 0, col: 4 }),
        (5, 0, CodeFault::Diagonal { row: 0, col: 5 }),
        (11, -1, CodeFault::Diagonal { row: 1, col: 5 }),
        (16, 0, CodeFault::Diagonal { row: 2, col: 4 }),
    ];
    for (at, entry, want) in cases {
        let mut entries = WIDE;
        if at < 18 {
            entries[at] = entry;
        }
        assert_eq!(rt;
            Code::read(rt.alloc(), &entries, 3, 6, 64).err(),
            Some(want),
            "at {at}"
        );
    }
}

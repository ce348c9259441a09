use ldpc_encode::{encode_into, word_laws};
use qc_matrix::Code;
use std::test::Fail;

#[test]
fn small_word_has_its_parity(rt: HostRuntime) -> Result<(), Fail> {
    let entries = [0, -1, 1, 0, -1, -1, 2, 0, 0, 0, 3, 0, 1, -1, 0];
    let code = Code::read(rt.alloc(), &entries, 3, 5, 4)?;
    let mut word = [0xff; 3];
    encode_into(&code, &[0x01], &mut word);
    assert_eq!(rt; word, [0x01, 0x83, 0x0b]);
    word_laws(&code);
    Ok(())
}

const PAYLOAD: [u8; 24] = [
    1, 2, 3, 4, 5, 6, 7, 8, 9, 10, 11, 12, 13, 14, 15, 16, 17, 18, 19, 20, 21, 22, 23, 24,
];

// Its parity was found by eliminating in the whole check matrix.
const WORD: [u8; 48] = [
    1, 2, 3, 4, 5, 6, 7, 8, 9, 10, 11, 12, 13, 14, 15, 16, 17, 18, 19, 20, 21, 22, 23, 24, 0x12,
    0x5a, 0x2d, 0xe3, 0x3c, 0x74, 0x50, 0xc8, 0x0c, 0x2a, 0x90, 0xf3, 0x1d, 0xbb, 0x28, 0xe4, 0x2a,
    0x4e, 0xb5, 0x12, 0x3d, 0xd9, 0x08, 0x06,
];

#[test]
fn wide_word_has_its_parity(rt: HostRuntime) -> Result<(), Fail> {
    let entries = [0, 1, -1, 1, 0, -1, 5, -1, 7, 0, 0, 0, -1, 11, 3, 1, -1, 0];
    let code = Code::read(rt.alloc(), &entries, 3, 6, 64)?;
    let mut word = [0; 48];
    encode_into(&code, &PAYLOAD, &mut word);
    assert_eq!(rt; word, WORD);
    Ok(())
}

#[test]
fn bits_that_fill_no_byte_are_kept_apart(rt: HostRuntime) -> Result<(), Fail> {
    let entries = [
        2, -1, 4, 0, -1, -1, -1, 1, -1, 0, 0, -1, 3, 3, 0, -1, 0, 0, -1, 0, 4, -1, -1, 0,
    ];
    let code = Code::read(rt.alloc(), &entries, 4, 6, 5)?;
    let mut word = [0xaa; 4];
    encode_into(&code, &[0xcd, 0x01], &mut word);
    assert_eq!(rt; word, [0xcd, 0xb9, 0x0b, 0x25]);
    Ok(())
}

use page_head::{part_into, payload_into, payload_of, put_part};
use ssd_geo::Shape;
use std::test::Fail;

// The payload of row 5 with serial 0 and these eight data bytes: worked out by hand.
const BYTES: [u8; 8] = [1, 2, 0, 0, 0, 0, 0, 0];

const PAYLOAD: [u8; 24] = [
    0, 0, 0, 0, 0, 0, 0, 0, 5, 0, 0, 0, 0x50, 0x47, 0x45, 0x31, 1, 2, 0, 0, 0, 0, 0, 0,
];

#[test]
fn a_head_is_put_before_the_data(rt: HostRuntime) -> Result<(), Fail> {
    let shape = Shape::new(1, 1, 3, 4, 2, 64, 3, 6, 8, 8)?;
    assert_eq!(rt; shape.payload_bytes(), 24);
    assert_eq!(rt; shape.bytes, 8);
    let mut payload = [9u8; 24];
    payload_into(&shape, 0, 5, &BYTES, &mut payload);
    assert_eq!(rt; payload.as_slice(), PAYLOAD.as_slice());
    Ok(())
}

// What is taken off a word of 48 bytes that begins with that payload, and off words with one byte changed.
#[test]
fn the_data_is_taken_off_where_the_head_is_there(rt: HostRuntime) -> Result<(), Fail> {
    let shape = Shape::new(1, 1, 3, 4, 2, 64, 3, 6, 8, 8)?;
    assert_eq!(rt; shape.word_bytes(), 48);
    let mut word = [7u8; 48];
    word[..24].copy_from_slice(&PAYLOAD);
    assert_eq!(rt; payload_of(&shape, &word, 0, 5), Some(BYTES.as_slice()));
    assert_eq!(rt; payload_of(&shape, &word, 1, 5), None);
    assert_eq!(rt; payload_of(&shape, &word, 0, 4), None);
    for at in [0, 7, 8, 11, 12, 15] {
        let mut other = word;
        other[at] ^= 1;
        assert_eq!(rt; payload_of(&shape, &other, 0, 5), None, "at {at}");
    }
    Ok(())
}

// With one data byte the seven bytes after it have to be zeros.
#[test]
fn the_zeros_after_the_data_are_tested(rt: HostRuntime) -> Result<(), Fail> {
    let shape = Shape::new(1, 1, 3, 4, 2, 64, 3, 6, 1, 8)?;
    assert_eq!(rt; shape.word_bytes(), 48);
    let mut word = [0u8; 48];
    word[..24].copy_from_slice(&PAYLOAD);
    assert_eq!(rt; payload_of(&shape, &word, 0, 5), None);
    word[17] = 0;
    assert_eq!(rt; payload_of(&shape, &word, 0, 5), Some([1u8].as_slice()));
    word[23] = 1;
    assert_eq!(rt; payload_of(&shape, &word, 0, 5), None);
    Ok(())
}

// Two codewords of 48 bytes: their parts stand in bytes 0 to 47 of the page's word, their parities in bytes 48 to 95.
#[test]
fn codewords_stand_with_their_parts_before_all_parities(rt: HostRuntime) -> Result<(), Fail> {
    let shape = Shape::new(2, 1, 3, 4, 2, 64, 3, 6, 8, 8)?;
    assert_eq!(rt; shape.words, 2);
    assert_eq!(rt; shape.word_bytes(), 96);
    assert_eq!(rt; shape.code_bytes(), 48);
    let mut word = [0u8; 96];
    for (at, byte) in word.iter_mut().enumerate() {
        *byte = at as u8;
    }
    for (part, first, parity) in [(0, 0, 48), (1, 24, 72)] {
        assert!(rt; part < shape.words);
        let mut code = [0xffu8; 48];
        part_into(&shape, &word, part, &mut code);
        for at in 0..24 {
            assert_eq!(rt; code[at], first + at as u8);
            assert_eq!(rt; code[24 + at], parity + at as u8);
        }
        let mut put = [0xeeu8; 96];
        put_part(&shape, &code, part, &mut put);
        for at in 0..96u8 {
            let own = at / 24 * 24 == first || at / 24 * 24 == parity;
            assert_eq!(rt;
                put[at as usize],
                if own { at } else { 0xee },
                "byte {at} of {part}"
            );
        }
    }
    Ok(())
}

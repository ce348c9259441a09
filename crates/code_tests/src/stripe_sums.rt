use die_parity::StripeSum;
use std::test::Fail;

// The words of a stripe, and their sum, added up by hand.
const WORDS: [[u8; 3]; 3] = [[0x0f, 0x81, 0xff], [0xf1, 0x80, 0x0f], [0x00, 0x01, 0xf0]];

const PARITY: [u8; 3] = [0xfe, 0x00, 0x00];

#[test]
fn the_sum_is_that_of_the_words_since_it_was_cleared(rt: HostRuntime) -> Result<(), Fail> {
    let mut sum = StripeSum::new(vec![in rt.alloc(); 0x55, 0xaa, 0x33]?);
    assert_eq!(rt; sum.bytes(), [0x55, 0xaa, 0x33].as_slice());
    sum.clear();
    assert_eq!(rt; sum.bytes(), [0; 3].as_slice());
    for word in WORDS {
        assert_eq!(rt; sum.bytes().len(), 3);
        sum.add(&word);
    }
    assert_eq!(rt; sum.bytes(), PARITY.as_slice());
    // A lost word is the sum of the others and the parity.
    assert_eq!(rt; sum.bytes().len(), 3);
    sum.add(&WORDS[0]);
    assert_eq!(rt; sum.bytes().len(), 3);
    sum.add(&WORDS[2]);
    assert_eq!(rt; sum.bytes(), WORDS[1].as_slice());
    Ok(())
}

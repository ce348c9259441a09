ghost use Rattle.std.specs.Prelude.{◌≡◌, IfOk, IfSome};
ghost use Rattle.code_tests.specs.Drives.{IsDrive};
ghost use Rattle.retry_ladder.specs.View.{IsAnswerOf, state_in};

use any_word::{AnyHalf, AnyWord};
use retry_ladder::{Answer, Ask, Decode, Ladder};
use ssd_geo::{Items, Look, Place, Shape, Slot};
use std::alloc::Global;
use std::process::Abort;
use std::test::Fail;

mod any_word;

// The word of a page: its head of a serial, a row and the mark, its data, and the rest of the word.
const PAGE: [u8; 48] = [
    1, 2, 3, 4, 5, 6, 7, 8, 5, 0, 0, 0, 0x50, 0x47, 0x45, 0x31, 9, 10, 11, 12, 13, 14, 15, 16,
    0x5a, 0x5a, 0x5a, 0x5a, 0x5a, 0x5a, 0x5a, 0x5a, 0x5a, 0x5a, 0x5a, 0x5a, 0x5a, 0x5a, 0x5a, 0x5a,
    0x5a, 0x5a, 0x5a, 0x5a, 0x5a, 0x5a, 0x5a, 0x5a,
];

const DATA: [u8; 8] = [9, 10, 11, 12, 13, 14, 15, 16];

// Two words without a head.
const ZEROS: [u8; 48] = [0; 48];

const ONES: [u8; 48] = [0xff; 48];

// The word that with `ONES` has the sum `PAGE`.
const REST: [u8; 48] = [
    0xfe, 0xfd, 0xfc, 0xfb, 0xfa, 0xf9, 0xf8, 0xf7, 0xfa, 0xff, 0xff, 0xff, 0xaf, 0xb8, 0xba, 0xce,
    0xf6, 0xf5, 0xf4, 0xf3, 0xf2, 0xf1, 0xf0, 0xef, 0xa5, 0xa5, 0xa5, 0xa5, 0xa5, 0xa5, 0xa5, 0xa5,
    0xa5, 0xa5, 0xa5, 0xa5, 0xa5, 0xa5, 0xa5, 0xa5, 0xa5, 0xa5, 0xa5, 0xa5, 0xa5, 0xa5, 0xa5, 0xa5,
];

// The dies and levels of all senses of a stripe, of which the page's own is die 1. The read levels
// are 40 and -8; no raw word fails a check, so that the soft senses are around the first of them,
// at distance 6.
const ASKS: [(u8, i16); 9] = [
    (1, 40),
    (1, -8),
    (1, 28),
    (1, 34),
    (1, 40),
    (1, 46),
    (1, 52),
    (0, 40),
    (2, 40),
];

// Slot 3 of a superblock is on die 1, in stripe 1, whose parity is on die 2.
fn look(closed: bool) -> Look
    ensures sb { result.slot.sb ≡ 1 }
    ensures index { result.slot.index ≡ 3 }
{
    Look {
        at: 0,
        row: 5,
        slot: Slot { sb: 1, index: 3 },
        serial: 0x0807_0605_0403_0201,
        closed,
    }
}

// A ladder of pages of 48 bytes with so many codewords.
fn ladder_of<C: Decode>(alloc: Global, decoder: &C, words: u8, z: u16) -> Result<Ladder, Fail>
    requires lifting { (C.matrix decoder.now).z ≡ z }
    requires base_rows { (C.matrix decoder.now).mb ≡ 3 }
    requires base_columns { (C.matrix decoder.now).nb ≡ 6 }
    ensures { IfOk result (λ ladder. IsDrive ladder.shape (C.matrix decoder.now)) }
{
    let Ok(shape) = Shape::new(words, 1, 3, 4, 2, z, 3, 6, 8, 8) else {
        return Err("no shape".into());
    };
    if shape.word_bytes() != 48 {
        return Err("pages of another length".into());
    }
    let levels = Items::new(vec![in alloc; 40i16, -8]?);
    let Ok(ladder) = Ladder::new(alloc, shape, levels, 6) else {
        return Err("no memory".into());
    };
    Ok(ladder)
}

// Feeds one sense, which has to be of this die and level.
fn feed<C: Decode>(
    rt: &impl Abort,
    ladder: &mut Ladder,
    decoder: &mut C,
    want: (u8, i16),
    sense: &[u8; 48],
)
    requires { IsDrive ladder.old.shape (C.matrix decoder.old) }
    ensures { IsDrive ladder.new.shape (C.matrix decoder.new) }
{
    let (die, wanted) = want;
    match ladder.ask() {
        Ask::At { place, level } => {
            assert_eq!(rt;
                place,
                Place {
                    die,
                    sb: 1,
                    page: 1
                }
            );
            assert_eq!(rt; level, wanted);
            ladder.feed(decoder, sense);
        }
        Ask::Done => assert!(rt; false, "it wants no sense"),
    }
}

// What a ladder answers to these senses, in the order in which it asks for them.
fn answer_to<C: Decode>(
    rt: &impl Abort,
    ladder: &mut Ladder,
    decoder: &mut C,
    closed: bool,
    senses: &[[u8; 48]],
) -> Option<Answer>
    requires { IsDrive ladder.old.shape (C.matrix decoder.old) }
    ensures answer { IfSome result (λ answer. IsAnswerOf (state_in ladder.new) answer) }
    ensures drive { IsDrive ladder.new.shape (C.matrix decoder.new) }
{
    ladder.begin(&look(closed));
    for (ask, sense) in ASKS.iter().zip(senses) {
        feed(rt, ladder, decoder, *ask, sense);
    }
    match ladder.ask() {
        Ask::Done => Some(ladder.answer()),
        Ask::At { .. } => None,
    }
}

// These senses recover the page at this rung, and no fewer do.
fn recovers<C: Decode>(
    rt: &impl Abort,
    ladder: &mut Ladder,
    decoder: &mut C,
    closed: bool,
    senses: &[[u8; 48]],
    rung: u8,
)
    requires { IsDrive ladder.old.shape (C.matrix decoder.old) }
    ensures { IsDrive ladder.new.shape (C.matrix decoder.new) }
{
    match answer_to(rt, ladder, decoder, closed, senses) {
        Some(Answer::Recovered { rung: at }) => {
            assert_eq!(rt; at, rung);
            assert_eq!(rt; ladder.word(), PAGE.as_slice());
            assert_eq!(rt; ladder.bytes(), DATA.as_slice());
        }
        other => assert!(rt; false, "{other:?} at rung {rung}"),
    }
}

fn recovers_at_each_rung<C: Decode>(rt: &impl Abort, ladder: &mut Ladder, decoder: &mut C)
    requires { IsDrive ladder.old.shape (C.matrix decoder.old) }
    ensures { IsDrive ladder.new.shape (C.matrix decoder.new) }
{
    recovers(rt, ladder, decoder, false, &[PAGE], 0);
    recovers(rt, ladder, decoder, false, &[ZEROS, PAGE], 1);
    // Of five senses two say 0 at each bit and two say 1, so the one in the middle decides.
    let soft = [ZEROS, ONES, ZEROS, ONES, PAGE, ZEROS, ONES];
    recovers(rt, ladder, decoder, false, &soft, 2);
    let stripe = [ZEROS, ZEROS, ZEROS, ZEROS, ZEROS, ZEROS, ZEROS, ONES, REST];
    recovers(rt, ladder, decoder, true, &stripe, 3);
    // No sum of an earlier look is left.
    let again = [ZEROS, ZEROS, ZEROS, ZEROS, ZEROS, ZEROS, ZEROS, REST, ONES];
    recovers(rt, ladder, decoder, true, &again, 3);
}

fn is_lost_without_its_head<C: Decode>(rt: &impl Abort, ladder: &mut Ladder, decoder: &mut C)
    requires { IsDrive ladder.old.shape (C.matrix decoder.old) }
{
    let open = [ZEROS, ONES, ZEROS, ONES, ZEROS, ZEROS, ONES];
    let lost = answer_to(rt, ladder, decoder, false, &open);
    assert_eq!(rt; lost, Some(Answer::Uncorrectable));
    let other = [ZEROS, ONES, ZEROS, ONES, ZEROS, ZEROS, ONES, PAGE, ONES];
    let lost = answer_to(rt, ladder, decoder, true, &other);
    assert_eq!(rt; lost, Some(Answer::Uncorrectable));
    let unanswered = answer_to(rt, ladder, decoder, true, &open);
    assert_eq!(rt; unanswered, None);
}

#[test]
fn a_page_of_one_codeword_is_recovered_at_each_rung(rt: HostRuntime) -> Result<(), Fail> {
    let mut ladder = ladder_of(rt.alloc(), &AnyWord, 1, 64)?;
    recovers_at_each_rung(&rt, &mut ladder, &mut AnyWord);
    is_lost_without_its_head(&rt, &mut ladder, &mut AnyWord);
    Ok(())
}

#[test]
fn a_page_of_two_codewords_is_recovered_at_each_rung(rt: HostRuntime) -> Result<(), Fail> {
    let mut ladder = ladder_of(rt.alloc(), &AnyHalf, 2, 32)?;
    recovers_at_each_rung(&rt, &mut ladder, &mut AnyHalf);
    is_lost_without_its_head(&rt, &mut ladder, &mut AnyHalf);
    Ok(())
}

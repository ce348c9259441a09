ghost use Rattle.std.specs.Prelude.{◌≡◌, ◌<◌};
ghost use Rattle.code_tests.specs.Drives.{two_codewords};
ghost use Rattle.retry_ladder.specs.Decoder.{IsCodeOf};
ghost use Rattle.ssd_geo.specs.Shape.{HasSizes};

use checked_word::CheckedWord;
use ldpc_decode::{Decoder, Lanes};
use ldpc_encode::encode_into;
use page_head::{payload_into, put_part};
use qc_matrix::Code;
use retry_ladder::{Answer, Ask, Ladder};
use ssd_geo::{Items, Look, Place, Shape, Slot};
use std::process::Abort;
use std::test::Fail;

mod checked_word;

const ENTRIES: [i16; 18] = [0, 1, -1, 1, 0, -1, 5, -1, 7, 0, 0, 0, -1, 11, 3, 1, -1, 0];

const DATA: [u8; 8] = [1, 2, 0, 0, 0, 0, 0, 0];

// Encodes one part of a payload into its place of the page.
fn put_code(shape: &Shape, code: &Code, payload: &[u8; 24], part: u8, page: &mut [u8; 48])
    requires sizes { HasSizes shape.now two_codewords }
    requires code { IsCodeOf shape.now code.now }
    requires part { part < 2 }
{
    let from = 12 * part as usize;
    let mut word = [0u8; 24];
    encode_into(code, &payload[from..from + 12], &mut word);
    put_part(shape, &word, part, page);
}

// The page of row 5 that serial 0 wrote.
fn page_of(shape: &Shape, code: &Code) -> [u8; 48]
    requires sizes { HasSizes shape.now two_codewords }
    requires code { IsCodeOf shape.now code.now }
{
    let mut payload = [0u8; 24];
    payload_into(shape, 0, 5, &DATA, &mut payload);
    let mut page = [0u8; 48];
    put_code(shape, code, &payload, 0, &mut page);
    put_code(shape, code, &payload, 1, &mut page);
    page
}

// A page with all ones in the place of a codeword, which no decoding makes a codeword of.
fn without(shape: &Shape, page: &[u8; 48], part: u8) -> [u8; 48]
    requires sizes { HasSizes shape.now two_codewords }
    requires part { part < 2 }
{
    let mut other = *page;
    put_part(shape, &[0xff; 24], part, &mut other);
    other
}

// Feeds one sense, which has to be of the page itself at this level.
fn feed(
    rt: &impl Abort,
    ladder: &mut Ladder,
    decoder: &mut CheckedWord,
    wanted: i16,
    sense: &[u8; 48],
)
    requires sizes { HasSizes ladder.old.shape two_codewords }
    requires code { IsCodeOf ladder.old.shape decoder.old.decoder.code }
    ensures sizes { HasSizes ladder.new.shape two_codewords }
    ensures code { IsCodeOf ladder.new.shape decoder.new.decoder.code }
{
    match ladder.ask() {
        Ask::At { place, level } => {
            assert_eq!(rt;
                place,
                Place {
                    die: 1,
                    sb: 0,
                    page: 0
                }
            );
            assert_eq!(rt; level, wanted);
            ladder.feed(decoder, sense);
        }
        Ask::Done => assert!(rt; false, "it wants no sense"),
    }
}

// A page of two codewords of 24 bytes. Each sense has one of them, and all ones in the place of the other: so the page is
// there only where the first is kept until the second is found.
#[test]
fn codewords_of_two_senses_make_a_page(rt: HostRuntime) -> Result<(), Fail> {
    let shape = Shape::new(2, 1, 3, 4, 2, 32, 3, 6, 8, 8)?;
    let code = Code::read(rt.alloc(), &ENTRIES, 3, 6, 32)?;
    let page = page_of(&shape, &code);
    let without_second = without(&shape, &page, 1);
    let without_first = without(&shape, &page, 0);
    let mut decoder = CheckedWord {
        decoder: Decoder::new(rt.alloc(), code, 16, Lanes::One)?,
    };
    let levels = Items::new(vec![in rt.alloc(); 0i16, -60]?);
    let mut ladder = Ladder::new(rt.alloc(), shape, levels, 6)?;
    ladder.begin(&Look {
        at: 0,
        row: 5,
        slot: Slot { sb: 0, index: 0 },
        serial: 0,
        closed: false,
    });
    feed(&rt, &mut ladder, &mut decoder, 0, &without_second);
    feed(&rt, &mut ladder, &mut decoder, -60, &without_first);
    match ladder.ask() {
        Ask::Done => {
            assert_eq!(rt; ladder.answer(), Answer::Recovered { rung: 1 });
            assert_eq!(rt; ladder.word(), page.as_slice());
            assert_eq!(rt; ladder.bytes(), DATA.as_slice());
        }
        Ask::At { .. } => assert!(rt; false, "it wants one more sense"),
    }
    Ok(())
}

// The data of a write: listed bytes, or the number that starts a generator.
ghost use Rattle.std.specs.Prelude.{◌≡◌, ◌+◌, ◌<◌, ◌∷◌, [], length, slice_index, ok_or, option_map};
ghost use Rattle.ssd_formats.specs.InputFaults.{bytes as bytes_fault};
ghost use Rattle.ssd_formats.specs.Numbers.{hex_digit, bytes_of_hex};
ghost use Rattle.ssd_formats.specs.TraceText.{content_of_text, listed_content, words_content};
ghost use Rattle.trace_text.specs.Answers.{Answers};

use crate::fault::{LineStop, TraceFault};
use crate::numbers::number;
use ssd_geo::{Content, Items};
use std::alloc::Global;

fn digit(byte: u8) -> Option<u8>
    ensures { result ≡ hex_digit byte }
{
    match byte {
        b'0'..=b'9' => Some(byte - b'0'),
        b'a'..=b'f' => Some(byte - b'a' + 10),
        _ => None,
    }
}

// The byte of two digits.
fn byte_of(high: u8, low: u8) -> Option<u8>
    ensures { option_map (λ byte. byte ∷ []) result ≡ bytes_of_hex (high ∷ low ∷ []) }
{
    Some(digit(high)? * 16 + digit(low)?)
}

const WRONG: LineStop = LineStop::Fault {
    fault: TraceFault::Data,
};

fn byte_at(digits: &[u8], at: usize) -> Option<u8>
    requires { at + 1 < length digits.now }
    ensures { option_map (λ byte. byte ∷ []) result
        ≡ bytes_of_hex (slice_index digits.now at ∷ slice_index digits.now (at + 1) ∷ []) }
{
    byte_of(digits[at], digits[at + 1])
}

// Listed data: pairs of digits of at most so many bytes.
fn listed(alloc: Global, most: u32, digits: &[u8]) -> Result<Content, LineStop>
    ensures { Answers result (ok_or (listed_content most digits.now) bytes_fault) }
{
    if digits.len() % 2 == 1 {
        return Err(WRONG);
    }
    if digits.len() / 2 > most as usize {
        return Err(WRONG);
    }
    let Ok(mut list) = Vec::with_capacity(alloc, digits.len() / 2) else {
        return Err(LineStop::Memory);
    };
    for i in 0..digits.len() / 2 {
        let Some(byte) = byte_at(digits, 2 * i) else {
            return Err(WRONG);
        };
        let Ok(()) = list.push(byte) else {
            return Err(LineStop::Memory);
        };
    }
    Ok(Content::Listed {
        list: Items::new(list),
    })
}

// Generated data: the number of the generator.
fn words(digits: &[u8]) -> Result<Content, LineStop>
    ensures { Answers result (ok_or (words_content digits.now) bytes_fault) }
{
    match number(digits) {
        Ok(Some(number)) => Ok(Content::Words { number }),
        _ => Err(WRONG),
    }
}

/// The data of a write on a drive with so many data bytes a page.
pub fn content(alloc: Global, most: u32, word: &[u8]) -> Result<Content, LineStop>
    ensures { Answers result (ok_or (content_of_text most word.now) bytes_fault) }
{
    match word {
        [b'x', digits @ ..] => listed(alloc, most, digits),
        [b'g', digits @ ..] => words(digits),
        _ => Err(WRONG),
    }
}

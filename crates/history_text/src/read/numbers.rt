// Numbers, each of which has one spelling.
ghost use Rattle.std.specs.Prelude.{◌≡◌, ◌∷◌};
ghost use Rattle.std.specs.List.{list_all};
ghost use Rattle.std.specs.Char.{is_ascii_digit};
ghost use Rattle.ssd_formats.specs.KindOfWords.{read_level, number_8 as number_of_8};
ghost use Rattle.ssd_formats.specs.KindOfWords.{number_16 as number_of_16, number_32 as number_of_32};
ghost use Rattle.ssd_formats.specs.KindOfWords.{number_64 as number_of_64};
ghost use Rattle.ssd_formats.specs.Numbers.{is_number as is_number_text, number_below};
ghost use Rattle.ssd_formats.specs.HistoryText.{spells as spells_number};

use itoa::Buffer;
use std::str;

/// Whether a word spells this number.
pub fn spells(number: u32, word: &[u8]) -> bool
    ensures { result ≡ spells_number number word.now }
{
    let mut digits = Buffer::new();
    word == digits.format(number).as_bytes()
}

fn are_digits(word: &[u8]) -> bool
    ensures { result ≡ list_all is_ascii_digit word.now }
{
    word.iter().all(|byte| byte.is_ascii_digit())
}

// Whether a word is spelled as a number.
fn is_number(word: &[u8]) -> bool
    ensures { result ≡ is_number_text word.now }
{
    match word {
        [] => false,
        [b'0', further @ ..] => further.is_empty(),
        _ => are_digits(word),
    }
}

/// The number that a word spells, if it has at most 64 bits.
pub fn number_64(word: &[u8]) -> Option<u64>
    ensures { result ≡ number_of_64 word.now }
{
    if !is_number(word) {
        return None;
    }
    match str::from_utf8(word) {
        Ok(digits) => digits.parse::<u64>().ok(),
        Err(_) => None,
    }
}

// The number that a word spells, if it is below a bound.
fn below(bound: u64, word: &[u8]) -> Option<u64>
    ensures { result ≡ number_below bound word.now }
{
    number_64(word).filter(|number| *number < bound)
}

pub fn number_32(word: &[u8]) -> Option<u32>
    ensures { result ≡ number_of_32 word.now }
{
    let number = below(1 << 32, word)?;
    Some(number as u32)
}

pub fn number_16(word: &[u8]) -> Option<u16>
    ensures { result ≡ number_of_16 word.now }
{
    let number = below(1 << 16, word)?;
    Some(number as u16)
}

pub fn number_8(word: &[u8]) -> Option<u8>
    ensures { result ≡ number_of_8 word.now }
{
    let number = below(1 << 8, word)?;
    Some(number as u8)
}

/// The level that a word spells.
pub fn level(word: &[u8]) -> Option<i16>
    ensures { result ≡ read_level word.now }
{
    match word {
        [b'-', digits @ ..] => negative(digits),
        _ => {
            let number = below(32768, word)?;
            Some(number as i16)
        }
    }
}

// The level below 0 whose digits these are.
fn negative(digits: &[u8]) -> Option<i16>
    ensures { result ≡ read_level (45 ∷ digits.now) }
{
    match below(32769, digits)? {
        0 => None,
        number => Some(-(number as i32) as i16),
    }
}

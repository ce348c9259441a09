// Numbers, each of which has one spelling.
ghost use Rattle.std.specs.Prelude.{◌≡◌, ◌^◌};
ghost use Rattle.std.specs.Char.{is_ascii_digit};
ghost use Rattle.std.specs.List.{list_all};
ghost use Rattle.ssd_formats.specs.Numbers.{is_number as is_number_text, number_below};

use std::str;

fn are_digits(text: &[u8]) -> bool
    ensures { result ≡ list_all is_ascii_digit text.now }
{
    text.iter().all(|byte| byte.is_ascii_digit())
}

// Whether a text is spelled as a number.
fn is_number(text: &[u8]) -> bool
    ensures { result ≡ is_number_text text.now }
{
    match text {
        [] => false,
        [b'0', further @ ..] => further.is_empty(),
        _ => are_digits(text),
    }
}

/// The number that a text spells, if it has at most 32 bits.
pub fn number(text: &[u8]) -> Option<u32>
    ensures { result ≡ number_below (2 ^ 32) text.now }
{
    if !is_number(text) {
        return None;
    }
    match str::from_utf8(text) {
        Ok(digits) => digits.parse::<u32>().ok(),
        Err(_) => None,
    }
}

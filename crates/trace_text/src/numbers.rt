// Numbers of a line: first their spelling is tested, then their value.
ghost use Rattle.std.specs.Prelude.{◌≡◌, ◌<◌, ◌≤◌, true, IfOk};
ghost use Rattle.std.specs.Char.{is_ascii_digit};
ghost use Rattle.std.specs.List.{list_all};
ghost use Rattle.std.specs.Str.{all_ascii_digits};
ghost use Rattle.std.specs.Str.Parse.{digits_value};
ghost use Rattle.ssd_formats.specs.Fields.{is_below};
ghost use Rattle.ssd_geo.specs.Limits.{is_within};
ghost use Rattle.ssd_formats.specs.Numbers.{is_number as is_number_text};
ghost use Rattle.ssd_formats.specs.TraceText.{number_word, ranged_word};
ghost use Rattle.trace_text.specs.Answers.{named, named_fault};
ghost use Rattle.trace_text.specs.Spelled.{fitting, fitting_number, tested_word};

use crate::fault::TraceFault;

fn are_digits(word: &[u8]) -> bool
    ensures { result ≡ list_all is_ascii_digit word.now }
{
    word.iter().all(|byte| byte.is_ascii_digit())
}

// Whether a word is spelled as a number.
#[tactic(auto, using(crate::proofs::Digits::digits_are_all))]
fn is_number(word: &[u8]) -> bool
    ensures number { result ≡ is_number_text word.now }
    ensures digits { result ≡ true → all_ascii_digits word.now ≡ true }
{
    match word {
        [] => false,
        [first, ..] => are_digits(word) && (*first != b'0' || word.len() == 1),
    }
}

// The number that digits spell, where it fits.
fn value(digits: &[u8]) -> Option<u64>
    requires { all_ascii_digits digits.now ≡ true }
    ensures { result ≡ fitting (digits_value 10 digits.now) }
{
    let mut value = 0u64;
    for digit in digits {
        let next = u128::from(value) * 10 + u128::from(*digit - b'0');
        if next > u128::from(u64::MAX) {
            return None;
        }
        value = next as u64;
    }
    Some(value)
}

/// The number that a word spells, where it fits. One that is too great for that is a number too.
pub fn number(word: &[u8]) -> Result<Option<u64>, TraceFault>
    ensures { named result ≡ fitting_number (number_word word.now) }
{
    if is_number(word) {
        return Ok(value(word));
    }
    Err(TraceFault::Number)
}

/// The number that a word spells, if it is below the bound; else this fault.
pub fn below(word: &[u8], bound: u32, fault: TraceFault) -> Result<u32, TraceFault>
    ensures read { named result ≡ tested_word (is_below bound) (named_fault fault) word.now }
    ensures range { IfOk result (λ n. n < bound) }
{
    match number(word)? {
        Some(number) if number < u64::from(bound) => Ok(number as u32),
        _ => Err(fault),
    }
}

/// The number that a word spells, if it is in a range.
pub fn within(word: &[u8], low: u32, high: u32) -> Result<u32, TraceFault>
    ensures read { named result ≡ ranged_word low high word.now }
    ensures range { IfOk result (λ n. (low ≤ n) × (n ≤ high)) }
{
    match number(word)? {
        Some(number) if u64::from(low) <= number && number <= u64::from(high) => Ok(number as u32),
        _ => Err(TraceFault::Range),
    }
}

// Words of a line, which stand between single spaces.
ghost use Rattle.std.specs.Prelude.{◌≡◌, ◌==◌, ◌∷◌, length, not, option_copied, position};
ghost use Rattle.std.specs.List.{list_all};
ghost use Rattle.ssd_formats.specs.Lines.{is_line_of_words as is_line_of_words_text, is_plain, is_space, words_in};
ghost use Rattle.trace_text.specs.Answers.{named};
ghost use Rattle.trace_text.specs.WordsLeft.{four_words as four_of_words, next_two as next_two_of_words, next_word as next_of_words, only_word as only_of_words, two_words as two_of_words, words_left};
ghost use Rattle.trace_text.specs.WordsLeft.{cut_of, cut_two_of, four_of, two_of, word_of};

use crate::fault::TraceFault;

fn are_plain(text: &[u8]) -> bool
    ensures { result ≡ list_all is_plain text.now }
{
    text.iter().all(|byte| b' ' <= *byte && *byte <= b'~')
}

fn has_no_empty_word(text: &[u8]) -> bool
    ensures { result ≡ list_all (λ word. not (length word == 0)) (words_in text.now) }
{
    text.split(|byte| *byte == b' ')
        .all(|word| !word.is_empty())
}

/// Whether a line is words with single spaces between.
pub fn is_line_of_words(text: &[u8]) -> bool
    ensures { result ≡ is_line_of_words_text text.now }
{
    are_plain(text) && has_no_empty_word(text)
}

fn first_space(text: &[u8]) -> Option<usize>
    ensures { result ≡ position is_space text.now }
{
    text.iter().position(|byte| *byte == b' ')
}

/// The first word of a text, and the text behind the space after it, where there is one.
#[tactic(auto, using(crate::proofs::Cuts::cut_at_first, crate::proofs::Cuts::cut_nowhere))]
pub fn cut_word(text: &[u8]) -> (&[u8], Option<&[u8]>)
    ensures { words_in text.now ≡ result.0.now ∷ words_left (option_copied result.1) }
{
    match first_space(text) {
        Some(at) => (&text[..at], Some(&text[at + 1..])),
        None => (text, None),
    }
}

/// The next word of those left, and what is left behind it.
pub fn next_word(left: Option<&[u8]>) -> Result<(&[u8], Option<&[u8]>), TraceFault>
    ensures { named (cut_of result) ≡ next_of_words (words_left (option_copied left.entry)) }
{
    match left {
        Some(text) => Ok(cut_word(text)),
        None => Err(TraceFault::Form),
    }
}

/// The only word that is left.
#[tactic(auto, using(crate::proofs::Cuts::more_than_one))]
pub fn only_word(left: Option<&[u8]>) -> Result<&[u8], TraceFault>
    ensures { named (word_of result) ≡ only_of_words (words_left (option_copied left.entry)) }
{
    match left {
        Some(text) => match cut_word(text) {
            (word, None) => Ok(word),
            (_, Some(_)) => Err(TraceFault::Form),
        },
        None => Err(TraceFault::Form),
    }
}

/// The next two words, and what is left behind them.
pub fn next_two(left: Option<&[u8]>) -> Result<(&[u8], &[u8], Option<&[u8]>), TraceFault>
    ensures { named (cut_two_of result) ≡ next_two_of_words (words_left (option_copied left.entry)) }
{
    let (first, left) = next_word(left)?;
    let (second, left) = next_word(left)?;
    Ok((first, second, left))
}

/// The only two words that are left.
pub fn two_words(left: Option<&[u8]>) -> Result<(&[u8], &[u8]), TraceFault>
    ensures { named (two_of result) ≡ two_of_words (words_left (option_copied left.entry)) }
{
    let (first, left) = next_word(left)?;
    Ok((first, only_word(left)?))
}

/// The only four words that are left.
pub fn four_words(left: Option<&[u8]>) -> Result<((&[u8], &[u8]), (&[u8], &[u8])), TraceFault>
    ensures { named (four_of result) ≡ four_of_words (words_left (option_copied left.entry)) }
{
    let (first, second, left) = next_two(left)?;
    Ok(((first, second), two_words(left)?))
}

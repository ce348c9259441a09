// The words of a line on their way through the line.
ghost use Rattle.std.specs.Prelude.{[], ◌∷◌, ◌++◌, map};
ghost use Rattle.ssd_formats.specs.EntryText.{line_of};
ghost use Rattle.history_text.specs.Printing.{Prints};
ghost use Rattle.history_text.specs.WordText.{word_text, further_words};

use crate::put::{put, put_count, put_dotted, put_number, put_pair, put_signed, put_three};
use crate::word::Word;
use ssd_io::{Failed, Sink};

/// Adds a word.
pub fn put_word<O: Sink>(output: &mut O, line: &mut Vec<u8>, word: Word) -> Result<(), Failed>
    ensures { Prints O.written O.faults output.old output.new line.old line.new result
        (word_text word) }
{
    match word {
        Word::Name(bytes) => put(output, line, bytes),
        Word::Number(n) => put_number(output, line, n),
        Word::Count(n) => put_count(output, line, n),
        Word::Level(n) => put_signed(output, line, n),
        Word::Address(slot) => put_pair(output, line, slot.sb as u64, slot.index as u64),
        Word::Block { die, sb } => put_pair(output, line, die as u64, sb as u64),
        Word::At(place) => put_three(
            output,
            line,
            place.die as u64,
            place.sb as u64,
            place.page as u64,
        ),
        Word::Call(tag) => put_pair(output, line, tag.actor as u64, tag.call as u64),
        Word::DieFault(die) => put_die_fault(output, line, die),
    }
}

fn put_die_fault<O: Sink>(output: &mut O, line: &mut Vec<u8>, die: u8) -> Result<(), Failed>
    ensures { Prints O.written O.faults output.old output.new line.old line.new result
        (word_text (Word.DieFault die)) }
{
    put(output, line, b"diefault")?;
    put_dotted(output, line, die as u64)
}

/// Adds a space and a word.
pub fn put_spaced<O: Sink>(output: &mut O, line: &mut Vec<u8>, word: Word) -> Result<(), Failed>
    ensures { Prints O.written O.faults output.old output.new line.old line.new result
        (32 ∷ word_text word) }
{
    put(output, line, b" ")?;
    put_word(output, line, word)
}

/// Adds words, each after a space.
pub fn put_words<O: Sink>(output: &mut O, line: &mut Vec<u8>, words: &[Word]) -> Result<(), Failed>
    ensures { Prints O.written O.faults output.old output.new line.old line.new result
        (further_words (map word_text words.now)) }
{
    for word in words {
        put_spaced(output, line, *word)?;
    }
    Ok(())
}

/// Adds the words that end a line.
pub fn put_rest<O: Sink>(output: &mut O, line: &mut Vec<u8>, words: &[Word]) -> Result<(), Failed>
    ensures { Prints O.written O.faults output.old output.new line.old line.new result
        (further_words (map word_text words.now) ++ 10 ∷ []) }
{
    put_words(output, line, words)?;
    put(output, line, b"\n")
}

/// Adds a line of words.
pub fn put_line<O: Sink>(
    output: &mut O,
    line: &mut Vec<u8>,
    first: Word,
    others: &[Word],
) -> Result<(), Failed>
    ensures { Prints O.written O.faults output.old output.new line.old line.new result
        (line_of (word_text first ∷ map word_text others.now)) }
{
    put_word(output, line, first)?;
    put_rest(output, line, others)
}

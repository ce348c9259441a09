// Lines of words.
ghost use Rattle.std.specs.Prelude.{◌∷◌, map};
ghost use Rattle.ssd_formats.specs.EntryText.{line_of};
ghost use Rattle.ssd_gen.specs.LineText.{further_text, word_text};
ghost use Rattle.ssd_io.specs.Writes.{Writes};

use crate::line_word::LineWord;
use crate::put::{put, put_number};
use ssd_io::{Failed, Sink};

fn put_data<O: Sink>(output: &mut O, number: u32) -> Result<(), Failed>
    ensures { Writes O.written O.faults output.old output.new result
        (word_text (LineWord.Data number)) }
{
    put(output, b"g")?;
    put_number(output, number as u64)
}

fn put_word<O: Sink>(output: &mut O, word: LineWord) -> Result<(), Failed>
    ensures { Writes O.written O.faults output.old output.new result (word_text word) }
{
    match word {
        LineWord::Name(bytes) => put(output, bytes),
        LineWord::Number(number) => put_number(output, number),
        LineWord::Data(number) => put_data(output, number),
    }
}

// A word behind a space.
fn put_further<O: Sink>(output: &mut O, word: LineWord) -> Result<(), Failed>
    ensures { Writes O.written O.faults output.old output.new result (32 ∷ word_text word) }
{
    put(output, b" ")?;
    put_word(output, word)
}

fn put_all_further<O: Sink>(output: &mut O, words: &[LineWord]) -> Result<(), Failed>
    ensures { Writes O.written O.faults output.old output.new result (further_text words.now) }
{
    for word in words {
        put_further(output, *word)?;
    }
    Ok(())
}

/// Writes a line of words.
pub fn put_line<O: Sink>(output: &mut O, first: LineWord, others: &[LineWord]) -> Result<(), Failed>
    ensures { Writes O.written O.faults output.old output.new result
        (line_of (word_text first ∷ map word_text others.now)) }
{
    put_word(output, first)?;
    put_all_further(output, others)?;
    put(output, b"\n")
}

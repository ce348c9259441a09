// The lines of histories.
ghost use Rattle.ssd_formats.specs.EntryText.{entry_line, history_text};
ghost use Rattle.history_text.specs.TextParts.{entries_text};
ghost use Rattle.history_text.specs.Printing.{Prints};

use crate::kind_words::kind_words;
use crate::put::put_number;
use crate::put_words::{put_line, put_rest, put_spaced};
use crate::word::Word;
use ssd_geo::Entry;
use ssd_io::{Failed, Sink};

/// Adds the history of a channel.
pub fn put_history<O: Sink>(
    output: &mut O,
    line: &mut Vec<u8>,
    channel: u64,
    entries: &[Entry],
) -> Result<(), Failed>
    ensures { Prints O.written O.faults output.old output.new line.old line.new result
        (history_text (channel, entries.now)) }
{
    let count = entries.len() as u64;
    put_line(
        output,
        line,
        Word::Name(b"channel"),
        &[Word::Number(channel), Word::Number(count)],
    )?;
    put_entries(output, line, entries)
}

fn put_entries<O: Sink>(output: &mut O, line: &mut Vec<u8>, entries: &[Entry]) -> Result<(), Failed>
    ensures { Prints O.written O.faults output.old output.new line.old line.new result
        (entries_text entries.now) }
{
    for (at, entry) in entries.iter().enumerate() {
        put_entry(output, line, at as u64, entry)?;
    }
    Ok(())
}

fn put_entry<O: Sink>(
    output: &mut O,
    line: &mut Vec<u8>,
    at: u64,
    entry: &Entry,
) -> Result<(), Failed>
    ensures { Prints O.written O.faults output.old output.new line.old line.new result
        (entry_line (at, entry.now)) }
{
    let words = kind_words(entry.kind);
    put_number(output, line, at)?;
    put_spaced(output, line, Word::Call(entry.tag))?;
    put_rest(output, line, words.as_slice())
}

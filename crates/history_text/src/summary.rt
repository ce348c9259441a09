// The summary of counts.
ghost use Rattle.std.specs.Prelude.{◌≡◌, ℕ, ◌+◌, ◌-◌, ◌^◌, ◌<◌, ◌≤◌, [], ◌∷◌, ◌++◌, length, map, codes, decimal};
ghost use Rattle.ssd_formats.specs.EntryText.{line_of};
ghost use Rattle.ssd_formats.specs.RunText.{count_line, summary_text};
ghost use Rattle.history_text.specs.Printing.{Prints};
ghost use Rattle.history_text.specs.SummaryText.{call_lines, entry_lines, last_lines, placed_summary};
ghost use Rattle.history_text.specs.WordText.{word_text, further_words};

use crate::put::put;
use crate::put_words::{put_line, put_spaced};
use crate::word::Word;
use ssd_io::{Failed, Sink};

/// The counts of hints.
#[derive(Clone, Copy)]
pub struct Hints {
    pub pushed: u128,
    pub dropped: u64,
    pub taken: u128,
}

/// Adds the summary.
pub fn put_summary<O: Sink>(
    output: &mut O,
    line: &mut Vec<u8>,
    calls: &[u128; 10],
    entries: &[u128; 10],
    rungs: &[u128],
    hints: &Hints,
) -> Result<(), Failed>
    ensures { Prints O.written O.faults output.old output.new line.old line.new result
        (summary_text (placed_summary calls.now entries.now rungs.now hints.now)) }
{
    put_call_lines(output, line, calls)?;
    put_entry_lines(output, line, entries)?;
    put_counts(output, line, rungs)?;
    put_last_lines(output, line, hints)
}

fn put_call_lines<O: Sink>(
    output: &mut O,
    line: &mut Vec<u8>,
    calls: &[u128; 10],
) -> Result<(), Failed>
    ensures { Prints O.written O.faults output.old output.new line.old line.new result
        (call_lines calls.now) }
{
    put_line(output, line, Word::Name(b"summary"), &[])?;
    put_four(
        output, line, b"write", calls[0], calls[1], calls[2], calls[3],
    )?;
    put_four(
        output, line, b"read", calls[4], calls[5], calls[6], calls[7],
    )?;
    put_line(output, line, Word::Name(b"trim"), &[Word::Count(calls[8])])
}

fn put_entry_lines<O: Sink>(
    output: &mut O,
    line: &mut Vec<u8>,
    entries: &[u128; 10],
) -> Result<(), Failed>
    ensures { Prints O.written O.faults output.old output.new line.old line.new result
        (entry_lines entries.now) }
{
    let moves = [
        Word::Count(entries[0]),
        Word::Name(b"condemn"),
        Word::Count(entries[1]),
        Word::Name(b"changed"),
        Word::Count(entries[2]),
        Word::Name(b"stay"),
        Word::Count(entries[3]),
    ];
    put_line(output, line, Word::Name(b"move"), &moves)?;
    let picks = [
        Word::Count(entries[4]),
        Word::Name(b"erase"),
        Word::Count(entries[5]),
        Word::Name(b"bad"),
        Word::Count(entries[6]),
        Word::Name(b"fault"),
        Word::Count(entries[7]),
    ];
    put_line(output, line, Word::Name(b"pick"), &picks)?;
    put_line(
        output,
        line,
        Word::Name(b"sense"),
        &[Word::Count(entries[8])],
    )
}

fn put_last_lines<O: Sink>(output: &mut O, line: &mut Vec<u8>, hints: &Hints) -> Result<(), Failed>
    ensures { Prints O.written O.faults output.old output.new line.old line.new result
        (last_lines hints.now) }
{
    let counts = [
        Word::Count(hints.pushed),
        Word::Number(hints.dropped),
        Word::Count(hints.taken),
    ];
    put_line(output, line, Word::Name(b"hint"), &counts)?;
    put_line(output, line, Word::Name(b"end"), &[])
}

fn put_four<O: Sink>(
    output: &mut O,
    line: &mut Vec<u8>,
    name: &'static [u8],
    first: u128,
    second: u128,
    third: u128,
    fourth: u128,
) -> Result<(), Failed>
    ensures { Prints O.written O.faults output.old output.new line.old line.new result
        (count_line name.now (first ∷ second ∷ third ∷ fourth ∷ [])) }
{
    let counts = [
        Word::Count(first),
        Word::Count(second),
        Word::Count(third),
        Word::Count(fourth),
    ];
    put_line(output, line, Word::Name(name), &counts)
}

// Adds the line of the rungs.
fn put_counts<O: Sink>(output: &mut O, line: &mut Vec<u8>, counts: &[u128]) -> Result<(), Failed>
    ensures { Prints O.written O.faults output.old output.new line.old line.new result
        (count_line (codes "rung") counts.now) }
{
    put(output, line, b"rung")?;
    put_spaced_counts(output, line, counts)?;
    put(output, line, b"\n")
}

fn put_spaced_counts<O: Sink>(
    output: &mut O,
    line: &mut Vec<u8>,
    counts: &[u128],
) -> Result<(), Failed>
    ensures { Prints O.written O.faults output.old output.new line.old line.new result
        (further_words (map decimal counts.now)) }
{
    for count in counts {
        put_spaced(output, line, Word::Count(*count))?;
    }
    Ok(())
}

// Lines of histories: the line of a channel, and one for each entry.
ghost use Rattle.std.specs.Prelude.{◌≡◌, []};
ghost use Rattle.ssd_formats.specs.HistoryText.{count_of_words, entries_of_lines, entry_of_words};
ghost use Rattle.ssd_formats.specs.HistoryText.{next_line};
ghost use Rattle.history_text.specs.LinesLeft.{Reads, channel_of_lines, count_of};
ghost use Rattle.history_text.specs.Pieces.{pieces_of};

use crate::fault::HistoryFault;
use crate::read::addresses::tag;
use crate::read::kinds::kind;
use crate::read::lines::Lines;
use crate::read::numbers::{number_32, spells};
use crate::read::pieces::{SPACE, next_piece, three_pieces};
use ssd_geo::{Entry, Items};
use std::alloc::Global;

/// The most entries of a channel's history.
const MOST_ENTRIES: u32 = 1 << 22;

// The number of entries that a word spells, if a channel may have so many.
#[tactic(auto, using(crate::proofs::EntryWords::fits))]
fn count(word: &[u8]) -> Option<u32>
    ensures { result ≡ count_of word.now }
{
    let count = number_32(word)?;
    if count <= MOST_ENTRIES {
        Some(count)
    } else {
        None
    }
}

// The number of entries that the line of a channel tells.
#[tactic(auto, using(crate::proofs::EntryWords::count_is))]
fn count_in(channel: u8, line: &[u8]) -> Option<u32>
    ensures { result ≡ count_of_words channel (pieces_of 32 line.now) }
{
    let (word, number, entries) = three_pieces(SPACE, Some(line))?;
    if word != b"channel".as_slice() || !spells(u32::from(channel), number) {
        return None;
    }
    count(entries)
}

// The entry at a position.
#[tactic(auto, using(crate::proofs::EntryWords::entry_is))]
fn entry_in(position: u32, line: &[u8]) -> Option<Entry>
    ensures { result ≡ entry_of_words position (pieces_of 32 line.now) }
{
    let (number, behind) = next_piece(SPACE, Some(line))?;
    let (call, words) = next_piece(SPACE, behind)?;
    if !spells(position, number) {
        return None;
    }
    let kind = kind(words)?;
    let tag = tag(call)?;
    Some(Entry { tag, kind })
}

fn read_count(lines: &mut Lines, channel: u8) -> Result<u32, HistoryFault>
    ensures { Reads result (next_line (count_of_words channel) lines.old) lines.new }
{
    let line = lines.take()?;
    let number = lines.taken();
    count_in(channel, line).ok_or(HistoryFault::Line { line: number })
}

fn read_entry(lines: &mut Lines, position: u32) -> Result<Entry, HistoryFault>
    ensures { Reads result (next_line (entry_of_words position) lines.old) lines.new }
{
    let line = lines.take()?;
    let number = lines.taken();
    entry_in(position, line).ok_or(HistoryFault::Line { line: number })
}

// So many entries.
fn read_entries(alloc: Global, lines: &mut Lines, count: u32) -> Result<Items<Entry>, HistoryFault>
    ensures { Reads result (entries_of_lines count [] lines.old) lines.new }
{
    let mut entries = Vec::new(alloc);
    for position in 0..count {
        let entry = read_entry(lines, position)?;
        if entries.push(entry).is_err() {
            return Err(HistoryFault::Memory);
        }
    }
    Ok(Items::new(entries))
}

/// The history of a channel.
pub fn read_channel(
    alloc: Global,
    lines: &mut Lines,
    channel: u8,
) -> Result<Items<Entry>, HistoryFault>
    ensures { Reads result (channel_of_lines channel lines.old) lines.new }
{
    let count = read_count(lines, channel)?;
    read_entries(alloc, lines, count)
}

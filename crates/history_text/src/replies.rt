// The lines of replies.
ghost use Rattle.std.specs.Prelude.{◌≡◌, ◌<◌, [], ◌∷◌, ◌++◌, map, false, decimal};
ghost use Rattle.std.specs.Fmt.{digit_glyph};
ghost use Rattle.ssd_formats.specs.Numbers.{hex_of_byte, hex_of_bytes};
ghost use Rattle.ssd_formats.specs.EntryText.{line_of};
ghost use Rattle.ssd_formats.specs.ReplyText.{actor_text, drained_text, refresh_text, reply_line};
ghost use Rattle.history_text.specs.Printing.{Prints};
ghost use Rattle.history_text.specs.TextParts.{replies_text};
ghost use Rattle.history_text.specs.WordText.{word_text, further_words};

use crate::put::{put, put_number};
use crate::put_words::{put_line, put_spaced, put_word, put_words};
use crate::word::Word;
use ssd_geo::{RefreshReply, Reply};
use ssd_io::{Failed, Sink};

/// Adds the replies of an actor.
pub fn put_actor<O: Sink>(
    output: &mut O,
    line: &mut Vec<u8>,
    actor: u64,
    replies: &[Reply],
) -> Result<(), Failed>
    ensures { Prints O.written O.faults output.old output.new line.old line.new result
        (actor_text (actor, replies.now)) }
{
    let count = replies.len() as u64;
    put_line(
        output,
        line,
        Word::Name(b"actor"),
        &[Word::Number(actor), Word::Number(count)],
    )?;
    put_replies(output, line, replies)
}

fn put_replies<O: Sink>(output: &mut O, line: &mut Vec<u8>, replies: &[Reply]) -> Result<(), Failed>
    ensures { Prints O.written O.faults output.old output.new line.old line.new result
        (replies_text replies.now) }
{
    for (call, reply) in replies.iter().enumerate() {
        put_reply(output, line, call as u64, reply)?;
    }
    Ok(())
}

fn put_reply<O: Sink>(
    output: &mut O,
    line: &mut Vec<u8>,
    call: u64,
    reply: &Reply,
) -> Result<(), Failed>
    ensures { Prints O.written O.faults output.old output.new line.old line.new result
        (reply_line (call, reply.now)) }
{
    let first = Word::Number(call);
    match reply {
        Reply::Ok => put_line(output, line, first, &[Word::Name(b"ok")]),
        Reply::Full => put_line(output, line, first, &[Word::Name(b"full")]),
        Reply::ReadOnly => put_line(output, line, first, &[Word::Name(b"readonly")]),
        Reply::DieFault { die } => put_line(output, line, first, &[Word::DieFault(*die)]),
        Reply::Data { rung, bytes } => put_data(output, line, call, *rung, bytes.as_slice()),
        Reply::Empty => put_line(output, line, first, &[Word::Name(b"empty")]),
        Reply::Uncorrectable => put_line(output, line, first, &[Word::Name(b"uncorrectable")]),
        Reply::Moved => put_line(output, line, first, &[Word::Name(b"moved")]),
        Reply::Changed => put_line(output, line, first, &[Word::Name(b"changed")]),
        Reply::NoRoom => put_line(output, line, first, &[Word::Name(b"noroom")]),
        Reply::Failed => put_line(output, line, first, &[Word::Name(b"failed")]),
        Reply::Collected { sb } => put_superblock(output, line, call, b"collected", *sb),
        Reply::Retired { sb } => put_superblock(output, line, call, b"retired", *sb),
        Reply::Idle => put_line(output, line, first, &[Word::Name(b"idle")]),
        Reply::Drained { pages } => put_drained(output, line, call, pages.as_slice()),
    }
}

fn put_superblock<O: Sink>(
    output: &mut O,
    line: &mut Vec<u8>,
    call: u64,
    name: &'static [u8],
    sb: u16,
) -> Result<(), Failed>
    ensures { Prints O.written O.faults output.old output.new line.old line.new result
        (line_of (decimal call ∷ name.now ∷ decimal sb ∷ [])) }
{
    let words = [Word::Name(name), Word::Number(sb as u64)];
    put_line(output, line, Word::Number(call), &words)
}

fn put_data<O: Sink>(
    output: &mut O,
    line: &mut Vec<u8>,
    call: u64,
    rung: u8,
    bytes: &[u8],
) -> Result<(), Failed>
    ensures { Prints O.written O.faults output.old output.new line.old line.new result
        (reply_line (call, Reply.Data rung bytes.now)) }
{
    put_number(output, line, call)?;
    put_words(
        output,
        line,
        &[Word::Name(b"data"), Word::Number(rung as u64)],
    )?;
    put_hex_end(output, line, bytes)
}

// Adds bytes in hexadecimal as the last word of a line.
fn put_hex_end<O: Sink>(output: &mut O, line: &mut Vec<u8>, bytes: &[u8]) -> Result<(), Failed>
    ensures { Prints O.written O.faults output.old output.new line.old line.new result
        (further_words (hex_of_bytes bytes.now ∷ []) ++ 10 ∷ []) }
{
    put(output, line, b" ")?;
    put_hex(output, line, bytes)?;
    put(output, line, b"\n")
}

fn put_hex<O: Sink>(output: &mut O, line: &mut Vec<u8>, bytes: &[u8]) -> Result<(), Failed>
    ensures { Prints O.written O.faults output.old output.new line.old line.new result
        (hex_of_bytes bytes.now) }
{
    for byte in bytes {
        put_byte(output, line, *byte)?;
    }
    Ok(())
}

fn put_byte<O: Sink>(output: &mut O, line: &mut Vec<u8>, byte: u8) -> Result<(), Failed>
    ensures { Prints O.written O.faults output.old output.new line.old line.new result
        (hex_of_byte byte) }
{
    put(output, line, &[hex_digit(byte / 16), hex_digit(byte % 16)])
}

fn hex_digit(n: u8) -> u8
    requires { n < 16 }
    ensures { result ≡ digit_glyph false n }
{
    if n < 10 { 48 + n } else { 87 + n }
}

fn put_drained<O: Sink>(
    output: &mut O,
    line: &mut Vec<u8>,
    call: u64,
    pages: &[(u32, RefreshReply)],
) -> Result<(), Failed>
    ensures { Prints O.written O.faults output.old output.new line.old line.new result
        (reply_line (call, Reply.Drained pages.now)) }
{
    let count = pages.len() as u64;
    put_number(output, line, call)?;
    put_words(output, line, &[Word::Name(b"drained"), Word::Number(count)])?;
    put_pages_end(output, line, pages)
}

// Adds pages with their replies as the last words of a line.
fn put_pages_end<O: Sink>(
    output: &mut O,
    line: &mut Vec<u8>,
    pages: &[(u32, RefreshReply)],
) -> Result<(), Failed>
    ensures { Prints O.written O.faults output.old output.new line.old line.new result
        (further_words (map drained_text pages.now) ++ 10 ∷ []) }
{
    put_pages(output, line, pages)?;
    put(output, line, b"\n")
}

fn put_pages<O: Sink>(
    output: &mut O,
    line: &mut Vec<u8>,
    pages: &[(u32, RefreshReply)],
) -> Result<(), Failed>
    ensures { Prints O.written O.faults output.old output.new line.old line.new result
        (further_words (map drained_text pages.now)) }
{
    for page in pages {
        put_page(output, line, page.0, page.1)?;
    }
    Ok(())
}

fn put_page<O: Sink>(
    output: &mut O,
    line: &mut Vec<u8>,
    page: u32,
    reply: RefreshReply,
) -> Result<(), Failed>
    ensures { Prints O.written O.faults output.old output.new line.old line.new result
        (32 ∷ drained_text (page, reply)) }
{
    put_spaced(output, line, Word::Number(page as u64))?;
    put(output, line, b"=")?;
    put_word(output, line, refresh_word(reply))
}

fn refresh_word(reply: RefreshReply) -> Word
    ensures { word_text result ≡ refresh_text reply }
{
    match reply {
        RefreshReply::Moved => Word::Name(b"moved"),
        RefreshReply::Changed => Word::Name(b"changed"),
        RefreshReply::Empty => Word::Name(b"empty"),
        RefreshReply::Uncorrectable => Word::Name(b"uncorrectable"),
        RefreshReply::NoRoom => Word::Name(b"noroom"),
        RefreshReply::ReadOnly => Word::Name(b"readonly"),
        RefreshReply::Failed => Word::Name(b"failed"),
        RefreshReply::DieFault { die } => Word::DieFault(die),
    }
}

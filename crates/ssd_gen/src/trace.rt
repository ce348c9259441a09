// The trace of the generated input.
ghost use Rattle.std.specs.Prelude.{◌%◌, ◌∷◌, decimal};
ghost use Rattle.ssd_formats.specs.EntryText.{line_of};
ghost use Rattle.ssd_formats.specs.GeneratedWork.{age_words, generated_line_of, host_words};
ghost use Rattle.ssd_gen.specs.TraceParts.{calls_text, trace_text};
ghost use Rattle.ssd_io.specs.Writes.{Writes};

use crate::draw::draw;
use crate::line::put_line;
use crate::line_word::LineWord;
use crate::put::put;
use rand_xoshiro::SplitMix64;
use ssd_io::{Failed, Sink};

const CALLS: u32 = 4096;

// Pages in the drive.
const PAGES: u64 = 1344;

// The ageing of a block that the word names.
fn put_age<O: Sink>(output: &mut O, word: u64) -> Result<(), Failed>
    ensures { Writes O.written O.faults output.old output.new result
        (line_of (decimal (word % 4) ∷ age_words word)) }
{
    let others = [
        LineWord::Name(b"age"),
        LineWord::Number((word >> 8) % 2),
        LineWord::Number((word >> 16) % 4),
        LineWord::Number((word >> 24) % 16),
        LineWord::Name(b"20"),
    ];
    put_line(output, LineWord::Number(word % 4), &others)
}

// A call of a host, mostly on a page that the word names.
fn put_host_call<O: Sink>(output: &mut O, call: u32, word: u64) -> Result<(), Failed>
    ensures { Writes O.written O.faults output.old output.new result
        (line_of (decimal (word % 4) ∷ host_words call word)) }
{
    let actor = LineWord::Number(word % 4);
    let page = LineWord::Number((word >> 8) % PAGES);
    match (word >> 4) % 16 {
        0..=7 => put_line(
            output,
            actor,
            &[LineWord::Name(b"write"), page, LineWord::Data(call)],
        ),
        8..=12 => put_line(output, actor, &[LineWord::Name(b"read"), page]),
        13 => put_line(output, actor, &[LineWord::Name(b"trim"), page]),
        14 => put_line(output, actor, &[LineWord::Name(b"refresh"), page]),
        _ => put_line(
            output,
            actor,
            &[LineWord::Name(b"drain"), LineWord::Name(b"4")],
        ),
    }
}

// Each 512th call is an ageing.
fn put_call<O: Sink>(output: &mut O, call: u32, word: u64) -> Result<(), Failed>
    ensures { Writes O.written O.faults output.old output.new result
        (generated_line_of call word) }
{
    if call % 512 == 511 {
        return put_age(output, word);
    }
    put_host_call(output, call, word)
}

fn put_calls<O: Sink>(output: &mut O, noise: &mut SplitMix64) -> Result<(), Failed>
    ensures { Writes O.written O.faults output.old output.new result (calls_text noise.old) }
{
    for call in 0..CALLS {
        let word = draw(noise);
        put_call(output, call, word)?;
    }
    Ok(())
}

/// Writes the trace, with the next words.
pub fn put_trace<O: Sink>(output: &mut O, noise: &mut SplitMix64) -> Result<(), Failed>
    ensures { Writes O.written O.faults output.old output.new result (trace_text noise.old) }
{
    put(output, b"trace 1 4\n")?;
    put_calls(output, noise)
}

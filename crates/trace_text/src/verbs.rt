// The verb of a call and its arguments. The number of arguments is tested before the first of them.
ghost use Rattle.std.specs.Prelude.{◌≡◌, ◌<◌, ◌*◌, ◌^◌, ◌∷◌, Ok, option_copied, IfOk};
ghost use Rattle.ssd_geo.specs.Shape.{sizes_of};
ghost use Rattle.ssd_formats.specs.TraceText.{age_call_of, bounded_word, collect_call_of, drain_call_of, page_word, pages_of_drive, verb_of as verb_of_words, write_call_of};
ghost use Rattle.trace_text.specs.Answers.{Answers, named};
ghost use Rattle.trace_text.specs.Arguments.{other_verb_of, page_verb_of, amount_with as amount_with_words, die_with as die_with_words, write_with as write_with_words};
ghost use Rattle.trace_text.specs.WordsLeft.{only_page_of, words_left};

use crate::content::content;
use crate::fault::{LineStop, TraceFault};
use crate::numbers::{below, within};
use crate::words::{four_words, only_word, two_words};
use ssd_geo::{Shape, Verb};
use std::alloc::Global;

// The pages of the drive, over all channels.
fn pages(shape: &Shape) -> u32
    ensures { result ≡ pages_of_drive (sizes_of shape.now) }
{
    shape.channels as u32 * shape.rows
}

fn page(shape: &Shape, word: &[u8]) -> Result<u32, TraceFault>
    ensures { named result ≡ page_word (sizes_of shape.now) word.now }
{
    below(word, pages(shape), TraceFault::Range)
}

// The page of a call that has no other argument.
fn only_page(shape: &Shape, arguments: Option<&[u8]>) -> Result<u32, TraceFault>
    ensures { named result ≡ only_page_of (sizes_of shape.now) (words_left (option_copied arguments.entry)) }
{
    page(shape, only_word(arguments)?)
}

fn channel(shape: &Shape, word: &[u8]) -> Result<u8, TraceFault>
    ensures { named result ≡ bounded_word shape.now.channels word.now }
{
    let channel = below(word, u32::from(shape.channels), TraceFault::Range)?;
    Ok(channel as u8)
}

fn die(shape: &Shape, word: &[u8]) -> Result<u8, TraceFault>
    ensures { named result ≡ bounded_word shape.now.dies word.now }
{
    let die = below(word, u32::from(shape.dies), TraceFault::Range)?;
    Ok(die as u8)
}

fn block(shape: &Shape, word: &[u8]) -> Result<u16, TraceFault>
    ensures { named result ≡ bounded_word shape.now.superblocks word.now }
{
    let block = below(word, u32::from(shape.superblocks), TraceFault::Range)?;
    Ok(block as u16)
}

fn collect(shape: &Shape, arguments: Option<&[u8]>) -> Result<Verb, TraceFault>
    ensures { named result ≡ collect_call_of (sizes_of shape.now) (words_left (option_copied arguments.entry)) }
{
    let channel = channel(shape, only_word(arguments)?)?;
    Ok(Verb::Collect { channel })
}

fn drain(arguments: Option<&[u8]>) -> Result<Verb, TraceFault>
    ensures { named result ≡ drain_call_of (words_left (option_copied arguments.entry)) }
{
    let count = within(only_word(arguments)?, 1, 16)?;
    Ok(Verb::Drain { count: count as u8 })
}

// The channel and the die of a block.
fn die_with(shape: &Shape, channel_at: &[u8], die_at: &[u8]) -> Result<(u8, u8), TraceFault>
    ensures { named result ≡ die_with_words (sizes_of shape.now) channel_at.now die_at.now }
{
    let channel = channel(shape, channel_at)?;
    let die = die(shape, die_at)?;
    Ok((channel, die))
}

// The block, and the amount by which it ages.
fn amount_with(shape: &Shape, block_at: &[u8], amount_at: &[u8]) -> Result<(u16, u16), TraceFault>
    ensures { named result ≡ amount_with_words (sizes_of shape.now) block_at.now amount_at.now }
{
    let sb = block(shape, block_at)?;
    let amount = within(amount_at, 1, 16383)?;
    Ok((sb, amount as u16))
}

#[tactic(auto, using(crate::proofs::Arguments::age_is))]
fn age(shape: &Shape, arguments: Option<&[u8]>) -> Result<Verb, TraceFault>
    ensures { named result ≡ age_call_of (sizes_of shape.now) (words_left (option_copied arguments.entry)) }
{
    let ((channel, die), (block, amount)) = four_words(arguments)?;
    let (channel, die) = die_with(shape, channel, die)?;
    let (sb, amount) = amount_with(shape, block, amount)?;
    Ok(Verb::Age {
        channel,
        die,
        sb,
        amount,
    })
}

fn write_with(
    alloc: Global,
    shape: &Shape,
    page_at: &[u8],
    data_at: &[u8],
) -> Result<Verb, LineStop>
    ensures { Answers result (write_with_words (sizes_of shape.now) page_at.now data_at.now) }
{
    let page = page(shape, page_at).map_err(|fault| LineStop::Fault { fault })?;
    let content = content(alloc, shape.bytes, data_at)?;
    Ok(Verb::Write { page, content })
}

#[tactic(auto, using(crate::proofs::Arguments::write_is))]
fn write(alloc: Global, shape: &Shape, arguments: Option<&[u8]>) -> Result<Verb, LineStop>
    ensures { Answers result (write_call_of (sizes_of shape.now) (words_left (option_copied arguments.entry))) }
{
    match two_words(arguments) {
        Ok((page_at, data_at)) => write_with(alloc, shape, page_at, data_at),
        Err(fault) => Err(LineStop::Fault { fault }),
    }
}

// A verb that names nothing but a page.
#[tactic(auto, using(crate::proofs::Arguments::page_call_is))]
fn page_verb(shape: &Shape, word: &[u8], arguments: Option<&[u8]>) -> Result<Verb, TraceFault>
    ensures { named result ≡ page_verb_of (sizes_of shape.now) word.now (words_left (option_copied arguments.entry)) }
{
    if word == b"read".as_slice() {
        let page = only_page(shape, arguments)?;
        return Ok(Verb::Read { page });
    }
    if word == b"trim".as_slice() {
        let page = only_page(shape, arguments)?;
        return Ok(Verb::Trim { page });
    }
    let page = only_page(shape, arguments)?;
    Ok(Verb::Refresh { page })
}

// Each verb but a write.
fn other_verb(shape: &Shape, word: &[u8], arguments: Option<&[u8]>) -> Result<Verb, TraceFault>
    ensures { named result ≡ other_verb_of (sizes_of shape.now) word.now (words_left (option_copied arguments.entry)) }
{
    if word == b"read".as_slice() || word == b"trim".as_slice() || word == b"refresh".as_slice() {
        return page_verb(shape, word, arguments);
    }
    if word == b"collect".as_slice() {
        return collect(shape, arguments);
    }
    if word == b"drain".as_slice() {
        return drain(arguments);
    }
    if word == b"age".as_slice() {
        return age(shape, arguments);
    }
    Err(TraceFault::Verb)
}

/// The verb of a call and its arguments.
#[tactic(auto, using(crate::proofs::Arguments::verb_is))]
pub fn verb(
    alloc: Global,
    shape: &Shape,
    word: &[u8],
    arguments: Option<&[u8]>,
) -> Result<Verb, LineStop>
    ensures { Answers result (verb_of_words (sizes_of shape.now) (word.now ∷ words_left (option_copied arguments.entry))) }
{
    if word == b"write".as_slice() {
        return write(alloc, shape, arguments);
    }
    other_verb(shape, word, arguments).map_err(|fault| LineStop::Fault { fault })
}

// The lines of a trace that aren't skipped: the first, and one for each call.
ghost use Rattle.std.specs.Prelude.{◌≡◌, ◌<◌, ◌≤◌, IfOk};
ghost use Rattle.ssd_geo.specs.Shape.{sizes_of};
ghost use Rattle.ssd_formats.specs.TraceText.{first_of_line};
ghost use Rattle.trace_text.specs.Answers.{Answers, named};
ghost use Rattle.trace_text.specs.LineTexts.{AddsCall, line_of_text, actor_and_verb_of};

use crate::call_list::CallList;
use crate::fault::{LineStop, TraceFault};
use crate::numbers::{below, number};
use crate::verbs::verb;
use crate::words::{cut_word, is_line_of_words, next_two, only_word};
use ssd_geo::{Shape, Verb};
use std::alloc::Global;

/// The number of actors that the first line tells.
pub fn actors(text: &[u8]) -> Result<u8, TraceFault>
    ensures read { named result ≡ first_of_line (line_of_text text.now) }
    ensures range { IfOk result (λ n. (1 ≤ n) × (n ≤ 32)) }
{
    if !is_line_of_words(text) {
        return Err(TraceFault::Form);
    }
    let Ok((word, version, left)) = next_two(Some(text)) else {
        return Err(TraceFault::First);
    };
    let Ok(actors) = only_word(left) else {
        return Err(TraceFault::First);
    };
    if word != b"trace".as_slice() || version != b"1".as_slice() {
        return Err(TraceFault::First);
    }
    match number(actors) {
        Ok(Some(actors)) if 1 <= actors && actors <= 32 => Ok(actors as u8),
        _ => Err(TraceFault::First),
    }
}

// The actor and the verb of a call.
fn actor_and_verb(
    alloc: Global,
    shape: &Shape,
    actors: u8,
    text: &[u8],
) -> Result<(u8, Verb), LineStop>
    ensures read { Answers result (actor_and_verb_of (sizes_of shape.now) actors text.now) }
    ensures range { IfOk result (λ call. call.0 < actors) }
{
    if !is_line_of_words(text) {
        return Err(LineStop::Fault {
            fault: TraceFault::Form,
        });
    }
    let (first, left) = cut_word(text);
    let actor = below(first, u32::from(actors), TraceFault::Actor).map_err(|fault| LineStop::Fault {
        fault,
    })?;
    let Some(text) = left else {
        return Err(LineStop::Fault {
            fault: TraceFault::Verb,
        });
    };
    let (word, arguments) = cut_word(text);
    let verb = verb(alloc, shape, word, arguments)?;
    Ok((actor as u8, verb))
}

/// Adds the call of a line to those before it.
pub fn add_call(
    alloc: Global,
    shape: &Shape,
    actors: u8,
    text: &[u8],
    calls: &mut CallList,
) -> Result<(), LineStop>
    requires { actors ≤ 32 }
    ensures { AddsCall result (sizes_of shape.now) actors calls.old calls.new text.now }
{
    let (actor, verb) = actor_and_verb(alloc, shape, actors, text)?;
    calls.add(shape.bytes, actor, verb)
}

// The lists of a run as its text takes them.
ghost use Rattle.std.specs.Prelude.{◌≡◌, IfOk, map};
ghost use Rattle.ssd_formats.specs.TraceText.{kind_of_verb, kinds_of_actor, kinds_of_trace};

use ssd_geo::{CallKind, Items, Memory, Reply, Trace, TraceCall, Verb};
use std::alloc::Global;

// The kind of a call.
fn kind_of(verb: &Verb) -> CallKind
    ensures { result ≡ kind_of_verb verb.now }
{
    match verb {
        Verb::Write { .. } => CallKind::Write,
        Verb::Read { .. } => CallKind::Read,
        Verb::Trim { .. } => CallKind::Trim,
        Verb::Refresh { .. } => CallKind::Refresh,
        Verb::Collect { .. } => CallKind::Collect,
        Verb::Drain { .. } => CallKind::Drain,
        Verb::Age { .. } => CallKind::Age,
    }
}

// The kinds of an actor's calls.
fn kinds_of_actor(alloc: Global, calls: &[TraceCall], actor: u8) -> Result<Items<CallKind>, Memory>
    ensures { IfOk result (λ kinds. kinds ≡ kinds_of_actor calls.now actor) }
{
    let mut kinds = Vec::new(alloc);
    for call in calls {
        if call.tag.actor != actor {
            continue;
        }
        let Ok(()) = kinds.push(kind_of(&call.verb)) else {
            return Err(Memory);
        };
    }
    Ok(Items::new(kinds))
}

// The kinds of the calls of each actor of a trace.
pub fn kinds_of(alloc: Global, trace: &Trace) -> Result<Vec<Items<CallKind>>, Memory>
    ensures { IfOk result (λ kinds. kinds.items ≡ kinds_of_trace trace.now) }
{
    let calls = trace.calls.as_slice();
    let mut kinds = Vec::new(alloc);
    for actor in 0..trace.actors {
        let of_actor = kinds_of_actor(alloc, calls, actor)?;
        let Ok(()) = kinds.push(of_actor) else {
            return Err(Memory);
        };
    }
    Ok(kinds)
}

// The replies of each actor.
pub fn replies_of(replies: Vec<Vec<Reply>>) -> Result<Vec<Items<Reply>>, Memory>
    ensures { IfOk result (λ lists. lists.items ≡ map (λ list. list.items) replies.items) }
{
    let alloc = *replies.allocator();
    let lists = replies
        .into_iter()
        .map(|list| Items::new(list))
        .collect(alloc);
    match lists {
        Ok(lists) => Ok(lists),
        Err(_) => Err(Memory),
    }
}

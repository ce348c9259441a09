// One call of an actor.
ghost use Rattle.std.specs.Prelude.{◌≡◌, ◌≤◌, IsFalse, length, map};
ghost use Rattle.actor_calls.specs.Hinted.{HasPagesOf, UsesPass};
ghost use Rattle.actor_calls.specs.Known.{AreKnown, AreSameCallers};
ghost use Rattle.actor_calls.specs.Served.{ServesCall, is_drain};
ghost use Rattle.ctl.specs.Asked.{FitsDrive, HasOwnData, settings};
ghost use Rattle.run_laws.specs.ServedRuns.{channel_of};
ghost use Rattle.shared_steps.specs.Sharing.{view_of_shared};

use crate::calling::call_on;
use crate::draining::{drain, stop_on};
use crate::hinting::push_hint;
use chan_calls::{Gate, Moment, Point, Worker};
use hint_queue::{HintPass, Hints};
use onfi_cmd::Die;
use shared_steps::{Contents, Shared};
use ssd_geo::{Reply, ServeStop, TraceCall, Verb};
use std::alloc::Global;
use std::sync::Wait;
use victim::Policy;

// The channel of a call that takes no hint, of so many.
fn channel_of(verb: &Verb, channels: usize) -> usize
    requires low { 1 ≤ channels }
    requires verb { IsFalse (is_drain verb.now) }
    ensures { channel_of channels verb.now ≡ Some result }
{
    match verb {
        Verb::Write { page, .. }
        | Verb::Read { page }
        | Verb::Trim { page }
        | Verb::Refresh { page } => *page as usize % channels,
        Verb::Age { channel, .. } | Verb::Collect { channel } => *channel as usize,
        Verb::Drain { .. } => unreachable!(),
    }
}

// Serves a call that takes no hint, on its channel. The data of a write are made in `bytes`.
fn serve_on_one<R: Wait, D: Die, P: Policy, J: Contents, G: Gate>(
    rt: &R,
    alloc: Global,
    channels: &mut [Shared<'_, R, D, P, J>],
    worker: &mut Worker,
    bytes: &mut [u8],
    gate: &G,
    call: &TraceCall,
) -> Result<Reply, ServeStop>
    requires low { 1 ≤ length channels.old }
    requires high { length channels.old ≤ 8 }
    requires verb { IsFalse (is_drain call.now.verb) }
    requires fits { FitsDrive worker.old.shape (length channels.old) call.now.verb }
    requires known { AreKnown (settings worker.old) call.now.tag.actor
        (map (λ shared. view_of_shared shared.turns.now shared.pass J.contents) channels.old) }
    requires own_data { HasOwnData worker.old.shape.bytes call.now.tag call.now.verb J.contents }
    requires bytes { length bytes.old ≡ worker.old.shape.bytes }
    ensures settings { settings worker.new ≡ settings worker.old }
    ensures bytes { length bytes.new ≡ length bytes.old }
    ensures callers { AreSameCallers
        (map (λ shared. view_of_shared shared.turns.now shared.pass J.contents) channels.old)
        (map (λ shared. view_of_shared shared.turns.now shared.pass J.contents) channels.new) }
    ensures known { AreKnown (settings worker.old) call.now.tag.actor
        (map (λ shared. view_of_shared shared.turns.now shared.pass J.contents) channels.new) }
    ensures serves { ServesCall
        (map (λ shared. view_of_shared shared.turns.now shared.pass J.contents) channels.old)
        (map (λ shared. view_of_shared shared.turns.now shared.pass J.contents) channels.new)
        call.now.tag call.now.verb result }
{
    let count = channels.len();
    let at = channel_of(&call.verb, count);
    match call_on(
        rt,
        alloc,
        worker,
        &mut channels[at],
        bytes,
        gate,
        call,
        at,
        count,
    ) {
        Ok(reply) => Ok(reply),
        Err(stop) => Err(stop_on(at, stop)),
    }
}

// Serves a call, whose pass of the queue of hints is handed back.
fn serve<R: Wait, D: Die, P: Policy, J: Contents, G: Gate>(
    rt: &R,
    alloc: Global,
    channels: &mut [Shared<'_, R, D, P, J>],
    worker: &mut Worker,
    hints: &Hints,
    pass: HintPass,
    bytes: &mut [u8],
    gate: &G,
    call: &TraceCall,
) -> (HintPass, Result<Reply, ServeStop>)
    requires low { 1 ≤ length channels.old }
    requires high { length channels.old ≤ 8 }
    requires fits { FitsDrive worker.old.shape (length channels.old) call.now.verb }
    requires known { AreKnown (settings worker.old) call.now.tag.actor
        (map (λ shared. view_of_shared shared.turns.now shared.pass J.contents) channels.old) }
    requires own_data { HasOwnData worker.old.shape.bytes call.now.tag call.now.verb J.contents }
    requires queue { pass.queue ≡ hints.now }
    requires pages { HasPagesOf worker.old.shape (length channels.old) hints.now.pages }
    requires bytes { length bytes.old ≡ worker.old.shape.bytes }
    ensures settings { settings worker.new ≡ settings worker.old }
    ensures bytes { length bytes.new ≡ length bytes.old }
    ensures callers { AreSameCallers
        (map (λ shared. view_of_shared shared.turns.now shared.pass J.contents) channels.old)
        (map (λ shared. view_of_shared shared.turns.now shared.pass J.contents) channels.new) }
    ensures known { AreKnown (settings worker.old) call.now.tag.actor
        (map (λ shared. view_of_shared shared.turns.now shared.pass J.contents) channels.new) }
    ensures serves { ServesCall
        (map (λ shared. view_of_shared shared.turns.now shared.pass J.contents) channels.old)
        (map (λ shared. view_of_shared shared.turns.now shared.pass J.contents) channels.new)
        call.now.tag call.now.verb result.1 }
    ensures hints { UsesPass call.now.verb result.1 pass result.0 }
{
    match &call.verb {
        Verb::Drain { count } => drain(
            rt, alloc, channels, worker, hints, pass, gate, call.tag, *count,
        ),
        Verb::Read { page } => {
            match serve_on_one(rt, alloc, channels, worker, bytes, gate, call) {
                Ok(reply) => (push_hint(rt, hints, pass, *page, &reply), Ok(reply)),
                Err(stop) => (pass, Err(stop)),
            }
        }
        Verb::Write { .. }
        | Verb::Trim { .. }
        | Verb::Refresh { .. }
        | Verb::Collect { .. }
        | Verb::Age { .. } => (
            pass,
            serve_on_one(rt, alloc, channels, worker, bytes, gate, call),
        ),
    }
}

/// Serves a call of a trace for its actor, among the calls of others, and answers its reply; the actor's pass of the queue of
/// hints is handed back. A read whose rung isn't 0 pushes its page; a drain takes hints. The data of a write are made in
/// `bytes`. Where the history of a channel has no room for the call's next entry, that channel is named and the call ends
/// there, as it does where memory is refused; a drain has then taken the hint of the page that it was to refresh. An answered
/// call passes the gate.
pub fn serve_call<R: Wait, D: Die, P: Policy, J: Contents, G: Gate>(
    rt: &R,
    alloc: Global,
    channels: &mut [Shared<'_, R, D, P, J>],
    worker: &mut Worker,
    hints: &Hints,
    pass: HintPass,
    bytes: &mut [u8],
    gate: &G,
    call: &TraceCall,
) -> (HintPass, Result<Reply, ServeStop>)
    requires low { 1 ≤ length channels.old }
    requires high { length channels.old ≤ 8 }
    requires fits { FitsDrive worker.old.shape (length channels.old) call.now.verb }
    requires known { AreKnown (settings worker.old) call.now.tag.actor
        (map (λ shared. view_of_shared shared.turns.now shared.pass J.contents) channels.old) }
    requires own_data { HasOwnData worker.old.shape.bytes call.now.tag call.now.verb J.contents }
    requires queue { pass.queue ≡ hints.now }
    requires pages { HasPagesOf worker.old.shape (length channels.old) hints.now.pages }
    requires bytes { length bytes.old ≡ worker.old.shape.bytes }
    ensures settings { settings worker.new ≡ settings worker.old }
    ensures bytes { length bytes.new ≡ length bytes.old }
    ensures callers { AreSameCallers
        (map (λ shared. view_of_shared shared.turns.now shared.pass J.contents) channels.old)
        (map (λ shared. view_of_shared shared.turns.now shared.pass J.contents) channels.new) }
    ensures known { AreKnown (settings worker.old) call.now.tag.actor
        (map (λ shared. view_of_shared shared.turns.now shared.pass J.contents) channels.new) }
    ensures serves { ServesCall
        (map (λ shared. view_of_shared shared.turns.now shared.pass J.contents) channels.old)
        (map (λ shared. view_of_shared shared.turns.now shared.pass J.contents) channels.new)
        call.now.tag call.now.verb result.1 }
    ensures hints { UsesPass call.now.verb result.1 pass result.0 }
{
    let (pass, result) = serve(rt, alloc, channels, worker, hints, pass, bytes, gate, call);
    if result.is_ok() {
        gate.pass(Point {
            tag: call.tag,
            moment: Moment::Answered,
        });
    }
    (pass, result)
}

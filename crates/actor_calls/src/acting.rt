// All calls of one actor.
ghost use Rattle.std.specs.Prelude.{◌≡◌, ◌≤◌, length, map};
ghost use Rattle.actor_calls.specs.Actors.{AreNew, AreNumbered, AreServable, HasServed};
ghost use Rattle.actor_calls.specs.Hinted.{HasPagesOf};
ghost use Rattle.actor_calls.specs.Known.{AreKnown, AreSameCallers};
ghost use Rattle.ctl.specs.Asked.{settings};
ghost use Rattle.race_laws.specs.Races.{calls_of};
ghost use Rattle.shared_steps.specs.Sharing.{view_of_shared};

use crate::serving::serve_call;
use chan_calls::{Gate, Worker};
use hint_queue::{HintPass, Hints};
use onfi_cmd::Die;
use shared_steps::{Contents, Shared};
use ssd_geo::{Reply, ServeStop, TraceCall};
use std::alloc::Global;
use std::sync::Wait;
use victim::Policy;

/// What an actor that served its calls has: the replies of those that were answered, why it stopped in the next one, if it
/// did, and its pass of the queue of hints.
#[derive(Drop)]
pub struct Acted {
    pub replies: Vec<Reply>,
    pub stop: Option<ServeStop>,
    pub pass: HintPass,
}

/// Serves the calls of an actor of a trace, one after the other, to the last or to one that stops. The memory for a reply is
/// set aside before its call: so no call is made whose reply is lost.
pub fn serve_actor<R: Wait, D: Die, P: Policy, J: Contents, G: Gate>(
    rt: &R,
    alloc: Global,
    channels: &mut [Shared<'_, R, D, P, J>],
    worker: &mut Worker,
    hints: &Hints,
    mut pass: HintPass,
    bytes: &mut [u8],
    gate: &G,
    actor: u8,
    calls: &[TraceCall],
) -> Acted
    requires low { 1 ≤ length channels.old }
    requires high { length channels.old ≤ 8 }
    requires numbered { AreNumbered actor (calls_of actor calls.now) }
    requires servable { AreServable worker.old.shape (length channels.old) J.contents (calls_of actor calls.now) }
    requires known { AreKnown (settings worker.old) actor
        (map (λ shared. view_of_shared shared.turns.now shared.pass J.contents) channels.old) }
    requires new { AreNew (map (λ shared. view_of_shared shared.turns.now shared.pass J.contents) channels.old) }
    requires queue { pass.queue ≡ hints.now }
    requires pages { HasPagesOf worker.old.shape (length channels.old) hints.now.pages }
    requires bytes { length bytes.old ≡ worker.old.shape.bytes }
    ensures settings { settings worker.new ≡ settings worker.old }
    ensures bytes { length bytes.new ≡ length bytes.old }
    ensures callers { AreSameCallers
        (map (λ shared. view_of_shared shared.turns.now shared.pass J.contents) channels.old)
        (map (λ shared. view_of_shared shared.turns.now shared.pass J.contents) channels.new) }
    ensures known { AreKnown (settings worker.old) actor
        (map (λ shared. view_of_shared shared.turns.now shared.pass J.contents) channels.new) }
    ensures served { HasServed
        (map (λ shared. view_of_shared shared.turns.now shared.pass J.contents) channels.old)
        (map (λ shared. view_of_shared shared.turns.now shared.pass J.contents) channels.new)
        actor calls.now result.replies.items result.stop pass result.pass }
{
    let mut replies = Vec::new(alloc);
    for call in calls {
        if call.tag.actor == actor {
            let Ok(()) = replies.reserve(1) else {
                return Acted {
                    replies,
                    stop: Some(ServeStop::Memory),
                    pass,
                };
            };
            let (next, result) = serve_call(
                rt, alloc, channels, worker, hints, pass, bytes, gate, call,
            );
            pass = next;
            match result {
                Ok(reply) => replies.push_reserved(reply),
                Err(stop) => {
                    return Acted {
                        replies,
                        stop: Some(stop),
                        pass,
                    };
                }
            }
        }
    }
    Acted {
        replies,
        stop: None,
        pass,
    }
}

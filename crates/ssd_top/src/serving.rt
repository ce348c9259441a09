// The calls of a trace, served one after the other.
ghost use Rattle.std.specs.Prelude.{◌≡◌, ◌≤◌, ◌<◌, ◌-◌, ◌^◌, [], IfOk, OnOk, length, map, replicate};
ghost use Rattle.ctl.specs.Asked.{settings};
ghost use Rattle.ctl.specs.Seen.{seen};
ghost use Rattle.run_laws.specs.SerialRuns.{with_reply};
ghost use Rattle.run_laws.specs.ServedRuns.{dropped_after};
ghost use Rattle.ssd_formats.specs.RunText.{taken_by};
ghost use Rattle.ssd_top.specs.Running.{BeginsRun, waiting_after};
ghost use Rattle.ssd_top.specs.Serving.{RunsToEnd};

use chan_calls::Worker;
use chan_state::Channel;
use ctl::{is_hint, serve_one};
use hint_queue::HintList;
use onfi_cmd::Die;
use ssd_geo::{Memory, Reply, ServeStop, Trace};
use std::alloc::Global;
use victim::Policy;

// How many hints wait at most. Each further one is dropped.
const MOST_HINTS: u32 = 256;

// How many hints wait after a reply, where so many waited before it.
fn waiting_after(reply: &Reply, waiting: u32) -> u32
    requires taken { taken_by reply.now ≤ waiting }
    ensures { result ≡ waiting_after reply.now waiting }
{
    if is_hint(reply) && waiting < MOST_HINTS {
        return waiting + 1;
    }
    match reply {
        Reply::Drained { pages } => waiting - pages.len() as u32,
        _ => waiting,
    }
}

// How many hints were dropped after a reply, where so many waited before it.
fn dropped_after(reply: &Reply, waiting: u32, dropped: u32) -> u32
    requires few { dropped < 2 ^ 32 - 1 }
    ensures { result ≡ dropped_after reply.now waiting dropped }
{
    if is_hint(reply) && waiting >= MOST_HINTS {
        return dropped + 1;
    }
    dropped
}

// Lists without replies, one for each actor.
fn no_replies(alloc: Global, actors: u8) -> Result<Vec<Vec<Reply>>, Memory>
    ensures { IfOk result
        (λ replies. map (λ list. list.items) replies.items ≡ replicate actors []) }
{
    let mut replies = Vec::new(alloc);
    for _ in 0..actors {
        let Ok(()) = replies.push(Vec::new(alloc)) else {
            return Err(Memory);
        };
    }
    Ok(replies)
}

// Adds a reply to those of its actor.
fn add_reply(replies: &mut Vec<Vec<Reply>>, actor: u8, reply: Reply) -> Result<(), Memory>
    requires { actor < length replies.old.items }
    ensures { OnOk result (map (λ list. list.items) replies.new.items
        ≡ with_reply (map (λ list. list.items) replies.old.items) actor reply) }
{
    let Ok(()) = replies[actor as usize].push(reply) else {
        return Err(Memory);
    };
    Ok(())
}

// The replies of the calls of a trace that were answered: all, or those before a stop at the limit of
// this channel's history, which then had this length; and how many hints of these replies were dropped.
// Item n of the replies has those of actor n.
#[derive(Drop)]
pub struct Answered {
    pub replies: Vec<Vec<Reply>>,
    pub full: Option<(u8, u32)>,
    pub dropped: u32,
}

// A list of so many zeros.
fn zeros(alloc: Global, count: usize) -> Result<Vec<u8>, Memory>
    ensures { IfOk result (λ list. length list.items ≡ count) }
{
    vec![in alloc; 0; count].map_err(|_| Memory)
}

// Serves the calls of a trace, to the first that finds no room in its channel's history.
pub fn serve_trace<D: Die, P: Policy>(
    alloc: Global,
    worker: &mut Worker,
    channels: &mut [Channel<D, P>],
    trace: &Trace,
) -> Result<Answered, Memory>
    requires begins { BeginsRun (settings worker.old)
        (map (λ channel. seen channel.kept (P.told channel.policy)) channels.old) trace.now }
    ensures same { settings worker.new ≡ settings worker.old }
    ensures ok { IfOk result (λ answered.
        RunsToEnd (settings worker.old)
        (map (λ channel. seen channel.kept (P.told channel.policy)) channels.old)
        (map (λ channel. seen channel.kept (P.told channel.policy)) channels.new) trace.now answered) }
{
    let mut replies = no_replies(alloc, trace.actors)?;
    let mut bytes = zeros(alloc, worker.shape().bytes as usize)?;
    let mut hints = HintList::new(alloc)?;
    let mut waiting = 0u32;
    let mut dropped = 0u32;
    for call in trace.calls.as_slice() {
        let reply = match serve_one(alloc, channels, worker, &mut hints, &mut bytes, call) {
            Ok(reply) => reply,
            Err(ServeStop::HistoryFull { channel, length }) => {
                return Ok(Answered {
                    replies,
                    full: Some((channel, length)),
                    dropped,
                });
            }
            Err(ServeStop::Memory) => return Err(Memory),
        };
        dropped = dropped_after(&reply, waiting, dropped);
        waiting = waiting_after(&reply, waiting);
        add_reply(&mut replies, call.tag.actor, reply)?;
    }
    Ok(Answered {
        replies,
        full: None,
        dropped,
    })
}

// A drain: the pages of hints are refreshed, one after the other.
ghost use Rattle.std.specs.Prelude.{◌≡◌, ◌≤◌, ◌<◌, ◌/◌, length, map};
ghost use Rattle.actor_calls.specs.Hinted.{DrainsPass, HasPagesOf};
ghost use Rattle.actor_calls.specs.Known.{AreKnown, AreSameCallers};
ghost use Rattle.actor_calls.specs.Served.{RefreshesPage, ServesCall};
ghost use Rattle.ctl.specs.Asked.{settings};
ghost use Rattle.ctl.specs.ChannelCalls.{stop_on};
ghost use Rattle.shared_steps.specs.Sharing.{view_of_shared};
ghost use Rattle.ssd_geo.specs.declared.reply.Reply.{Reply};
ghost use Rattle.ssd_geo.specs.declared.trace.Verb.{Verb};
ghost use Rattle.ssd_histories.specs.Replies.{is_die_fault};

use crate::single::row_of;
use calls_among_others::refreshes_among_are_refreshes;
use chan_calls::{Gate, Worker};
use hint_queue::{HintPass, Hints};
use onfi_cmd::Die;
use race_laws::{drains_among_are_drains, drains_stop_begun};
use refresh::refresh;
use shared_steps::{Contents, Shared};
use ssd_geo::{Items, RefreshReply, Reply, ServeStop, StepStop, Tag};
use std::alloc::Global;
use std::sync::Wait;
use victim::Policy;

// Why a call on this channel was not served to its end.
pub fn stop_on(channel: usize, stop: StepStop) -> ServeStop
    requires { channel < 256 }
    ensures { result ≡ stop_on channel stop }
{
    match stop {
        StepStop::HistoryFull { length } => ServeStop::HistoryFull {
            channel: channel as u8,
            length,
        },
        StepStop::Memory => ServeStop::Memory,
    }
}

// Whether the call of a die failed in a refresh.
fn is_die_fault(reply: RefreshReply) -> bool
    ensures { result ≡ is_die_fault reply }
{
    matches!(reply, RefreshReply::DieFault { .. })
}

// The reply of a drain that refreshed these pages.
fn drained(pages: Vec<(u32, RefreshReply)>) -> Reply
    ensures { result ≡ Reply.Drained pages.items }
{
    Reply::Drained {
        pages: Items::new(pages),
    }
}

// Refreshes a page on its channel.
fn refresh_page<R: Wait, D: Die, P: Policy, J: Contents, G: Gate>(
    channels: &mut [Shared<'_, R, D, P, J>],
    worker: &mut Worker,
    gate: &G,
    tag: Tag,
    page: u32,
) -> Result<RefreshReply, ServeStop>
    requires low { 1 ≤ length channels.old }
    requires high { length channels.old ≤ 8 }
    requires row { page / length channels.old < worker.old.shape.rows }
    requires known { AreKnown (settings worker.old) tag.actor
        (map (λ shared. view_of_shared shared.turns.now shared.pass J.contents) channels.old) }
    ensures settings { settings worker.new ≡ settings worker.old }
    ensures callers { AreSameCallers
        (map (λ shared. view_of_shared shared.turns.now shared.pass J.contents) channels.old)
        (map (λ shared. view_of_shared shared.turns.now shared.pass J.contents) channels.new) }
    ensures known { AreKnown (settings worker.old) tag.actor
        (map (λ shared. view_of_shared shared.turns.now shared.pass J.contents) channels.new) }
    ensures refreshes { RefreshesPage
        (map (λ shared. view_of_shared shared.turns.now shared.pass J.contents) channels.old)
        (map (λ shared. view_of_shared shared.turns.now shared.pass J.contents) channels.new) tag page result }
{
    refreshes_among_are_refreshes();
    let count = channels.len();
    let channel = page as usize % count;
    match refresh(
        worker,
        &mut channels[channel],
        gate,
        tag,
        row_of(page, count),
    ) {
        Ok(reply) => Ok(reply),
        Err(stop) => Err(stop_on(channel, stop)),
    }
}

// Takes hints, at most so many, and refreshes the page of each before it takes the next; it stops where none waits, and after
// one in which the call of a die failed. The memory for its reply is set aside before it takes a hint.
pub fn drain<R: Wait, D: Die, P: Policy, J: Contents, G: Gate>(
    rt: &R,
    alloc: Global,
    channels: &mut [Shared<'_, R, D, P, J>],
    worker: &mut Worker,
    hints: &Hints,
    mut pass: HintPass,
    gate: &G,
    tag: Tag,
    count: u8,
) -> (HintPass, Result<Reply, ServeStop>)
    requires low { 1 ≤ length channels.old }
    requires high { length channels.old ≤ 8 }
    requires known { AreKnown (settings worker.old) tag.actor
        (map (λ shared. view_of_shared shared.turns.now shared.pass J.contents) channels.old) }
    requires queue { pass.queue ≡ hints.now }
    requires pages { HasPagesOf worker.old.shape (length channels.old) hints.now.pages }
    ensures settings { settings worker.new ≡ settings worker.old }
    ensures callers { AreSameCallers
        (map (λ shared. view_of_shared shared.turns.now shared.pass J.contents) channels.old)
        (map (λ shared. view_of_shared shared.turns.now shared.pass J.contents) channels.new) }
    ensures known { AreKnown (settings worker.old) tag.actor
        (map (λ shared. view_of_shared shared.turns.now shared.pass J.contents) channels.new) }
    ensures serves { ServesCall
        (map (λ shared. view_of_shared shared.turns.now shared.pass J.contents) channels.old)
        (map (λ shared. view_of_shared shared.turns.now shared.pass J.contents) channels.new)
        tag (Verb.Drain count) result.1 }
    ensures hints { DrainsPass count result.1 pass result.0 }
{
    drains_among_are_drains();
    drains_stop_begun();
    let Ok(mut pages) = Vec::with_capacity(alloc, count as usize) else {
        return (pass, Err(ServeStop::Memory));
    };
    for _ in 0..count {
        let (next, found) = hints.pop(rt, pass);
        pass = next;
        let Some(page) = found else {
            return (pass, Ok(drained(pages)));
        };
        match refresh_page(channels, worker, gate, tag, page) {
            Ok(reply) => {
                pages.push_reserved((page, reply));
                if is_die_fault(reply) {
                    return (pass, Ok(drained(pages)));
                }
            }
            Err(stop) => return (pass, Err(stop)),
        }
    }
    (pass, Ok(drained(pages)))
}

// A drain: the pages of hints are refreshed, one after the other.
ghost use Rattle.std.specs.Prelude.{◌≡◌, length, map};
ghost use Rattle.ctl.specs.Asked.{HintsFit, IsPageOf, settings};
ghost use Rattle.ctl.specs.Draining.{Drains, MayRefresh, Refreshes};
ghost use Rattle.ctl.specs.Seen.{seen};
ghost use Rattle.ssd_geo.specs.declared.reply.Reply.{Reply};
ghost use Rattle.ssd_histories.specs.Replies.{is_die_fault};

use crate::calling::{refresh_on, row_of, stop_on};
use chan_calls::Worker;
use chan_state::Channel;
use hint_queue::HintList;
use onfi_cmd::Die;
use ssd_geo::{Items, RefreshReply, Reply, ServeStop, Tag};
use std::alloc::Global;
use victim::Policy;

// Refreshes a page on its channel.
pub fn refresh_page<D: Die, P: Policy>(
    channels: &mut [Channel<D, P>],
    worker: &mut Worker,
    tag: Tag,
    page: u32,
) -> Result<RefreshReply, ServeStop>
    requires may { MayRefresh (settings worker.old)
        (map (λ channel. seen channel.kept (P.told channel.policy)) channels.old) }
    requires page { IsPageOf worker.old.shape (length channels.old) page }
    ensures same { settings worker.new ≡ settings worker.old }
    ensures refreshes { Refreshes (settings worker.old)
        (map (λ channel. seen channel.kept (P.told channel.policy)) channels.old)
        (map (λ channel. seen channel.kept (P.told channel.policy)) channels.new) tag page result }
{
    let count = channels.len();
    let channel = page as usize % count;
    match refresh_on(worker, &mut channels[channel], tag, row_of(page, count)) {
        Ok(reply) => Ok(reply),
        Err(stop) => Err(stop_on(channel, stop)),
    }
}

// Whether the call of a die failed in a refresh.
fn is_die_fault(reply: RefreshReply) -> bool
    ensures { result ≡ is_die_fault reply }
{
    matches!(reply, RefreshReply::DieFault { .. })
}

// The reply of a drain that refreshed these pages.
fn drained(pages: Vec<(u32, RefreshReply)>) -> Reply
    ensures { result ≡ Reply.Drained pages.items }
{
    Reply::Drained {
        pages: Items::new(pages),
    }
}

// Takes hints in front, at most so many, and refreshes the page of each before it takes the next; it stops where none
// waits, and after one in which the call of a die failed. The memory for its reply is set aside before it takes a hint.
pub fn drain<D: Die, P: Policy>(
    alloc: Global,
    channels: &mut [Channel<D, P>],
    worker: &mut Worker,
    hints: &mut HintList,
    tag: Tag,
    count: u8,
) -> Result<Reply, ServeStop>
    requires may { MayRefresh (settings worker.old)
        (map (λ channel. seen channel.kept (P.told channel.policy)) channels.old) }
    requires fit { HintsFit worker.old.shape (length channels.old) hints.old }
    ensures same { settings worker.new ≡ settings worker.old }
    ensures drains { Drains (settings worker.old)
        (map (λ channel. seen channel.kept (P.told channel.policy)) channels.old)
        (map (λ channel. seen channel.kept (P.told channel.policy)) channels.new) hints.old hints.new tag count result }
{
    let Ok(mut pages) = Vec::with_capacity(alloc, count as usize) else {
        return Err(ServeStop::Memory);
    };
    for _ in 0..count {
        let Some(page) = hints.take_front() else {
            return Ok(drained(pages));
        };
        let reply = refresh_page(channels, worker, tag, page)?;
        pages.push_reserved((page, reply));
        if is_die_fault(reply) {
            return Ok(drained(pages));
        }
    }
    Ok(drained(pages))
}

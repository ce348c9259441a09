// A call, or a refresh, on its channel.
ghost use Rattle.std.specs.Prelude.{◌≡◌, ◌≤◌, ◌<◌, ◌/◌, IsFalse, Some, length};
ghost use Rattle.ctl.specs.Asked.{FitsDrive, refreshes, settings};
ghost use Rattle.ctl.specs.ChannelCalls.{EndsOn, MayRefreshOn, MayServeOn, RefreshEndsOn, stop_on};
ghost use Rattle.ctl.specs.Seen.{seen};
ghost use Rattle.run_laws.specs.ServedRuns.{channel_of};

use crate::content::content_into;
use alone_calls::{age, collect, read, refresh, trim, write};
use chan_calls::{Alone, Worker};
use chan_state::Channel;
use onfi_cmd::Die;
use ssd_geo::{RefreshReply, Reply, ServeStop, StepStop, Tag, TraceCall, Verb};
use std::alloc::Global;
use victim::Policy;

// The channel of a call, of so many.
pub fn channel_of(verb: &Verb, channels: usize) -> usize
    requires low { 1 ≤ channels }
    requires verb { IsFalse (refreshes verb.now) }
    ensures { channel_of channels verb.now ≡ Some result }
{
    match verb {
        Verb::Write { page, .. } | Verb::Read { page } | Verb::Trim { page } => {
            *page as usize % channels
        }
        Verb::Age { channel, .. } | Verb::Collect { channel } => *channel as usize,
        Verb::Refresh { .. } | Verb::Drain { .. } => unreachable!(),
    }
}

// The row of a page on its channel, of so many.
pub fn row_of(page: u32, channels: usize) -> u32
    requires low { 1 ≤ channels }
    requires high { channels ≤ 8 }
    ensures { result ≡ page / channels }
{
    page / channels as u32
}

// Why a call on this channel was not served to its end.
pub fn stop_on(channel: usize, stop: StepStop) -> ServeStop
    requires { channel < 256 }
    ensures { result ≡ stop_on channel stop }
{
    match stop {
        StepStop::HistoryFull { length } => ServeStop::HistoryFull {
            channel: channel as u8,
            length,
        },
        StepStop::Memory => ServeStop::Memory,
    }
}

// Refreshes a row of a channel.
pub fn refresh_on<D: Die, P: Policy>(
    worker: &mut Worker,
    channel: &mut Channel<D, P>,
    tag: Tag,
    row: u32,
) -> Result<RefreshReply, StepStop>
    requires may { MayRefreshOn (settings worker.old)
        (seen channel.old.kept (P.told channel.old.policy)) }
    requires row { row < worker.old.shape.rows }
    ensures same { settings worker.new ≡ settings worker.old }
    ensures ends { RefreshEndsOn (settings worker.old) (seen channel.old.kept (P.told channel.old.policy))
        (seen channel.new.kept (P.told channel.new.policy)) tag row result }
{
    let mut steps = Alone::new(channel);
    refresh(worker, &mut steps, tag, row)
}

// Serves a call that refreshes no page, on its channel, of so many. The data of a write are made in `bytes`.
pub fn call_on<D: Die, P: Policy>(
    alloc: Global,
    worker: &mut Worker,
    channel: &mut Channel<D, P>,
    bytes: &mut [u8],
    call: &TraceCall,
    channels: usize,
) -> Result<Reply, StepStop>
    requires low { 1 ≤ channels }
    requires high { channels ≤ 8 }
    requires may { MayServeOn (settings worker.old)
        (seen channel.old.kept (P.told channel.old.policy)) call.now.tag call.now.verb }
    requires fits { FitsDrive worker.old.shape channels call.now.verb }
    requires verb { IsFalse (refreshes call.now.verb) }
    requires bytes { length bytes.old ≡ worker.old.shape.bytes }
    ensures same { settings worker.new ≡ settings worker.old }
    ensures bytes { length bytes.new ≡ length bytes.old }
    ensures ends { EndsOn (settings worker.old) channels (seen channel.old.kept (P.told channel.old.policy))
        (seen channel.new.kept (P.told channel.new.policy)) call.now.tag call.now.verb result }
{
    let tag = call.tag;
    let mut steps = Alone::new(channel);
    match &call.verb {
        Verb::Write { page, content } => {
            content_into(content, bytes);
            write(worker, &mut steps, tag, row_of(*page, channels), bytes)
        }
        Verb::Read { page } => read(alloc, worker, &mut steps, tag, row_of(*page, channels)),
        Verb::Trim { page } => match trim(&mut steps, tag, row_of(*page, channels)) {
            Ok(()) => Ok(Reply::Ok),
            Err(stop) => Err(stop),
        },
        Verb::Collect { .. } => collect(worker, &mut steps, tag),
        Verb::Age {
            die,
            sb,
            amount,
            ..
        } => age(&mut steps, tag, *die, *sb, *amount),
        Verb::Refresh { .. } | Verb::Drain { .. } => unreachable!(),
    }
}

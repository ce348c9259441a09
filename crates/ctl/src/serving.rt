// One call of a trace.
ghost use Rattle.std.specs.Prelude.{◌≡◌, [], IsFalse, length, map};
ghost use Rattle.ctl.specs.Asked.{refreshes, settings};
ghost use Rattle.ctl.specs.OnOne.{ServesOnOne};
ghost use Rattle.ctl.specs.Seen.{seen};
ghost use Rattle.ctl.specs.Served.{MayServe, Serves};
ghost use Rattle.run_laws.specs.ServedRuns.{hints_after};
ghost use Rattle.ssd_formats.specs.RunText.{is_hinted};
ghost use Rattle.ssd_geo.specs.declared.trace.Verb.{Verb};
ghost use Rattle.ssd_histories.specs.Replies.{reply_of_refresh};

use crate::calling::{call_on, channel_of, stop_on};
use crate::draining::{drain, refresh_page};
use chan_calls::Worker;
use chan_state::Channel;
use hint_queue::HintList;
use onfi_cmd::Die;
use ssd_geo::{RefreshReply, Reply, ServeStop, TraceCall, Verb};
use std::alloc::Global;
use victim::Policy;

/// Whether a reply is a hint: data of a rung that isn't 0.
pub fn is_hint(reply: &Reply) -> bool
    ensures { result ≡ is_hinted reply.now }
{
    matches!(reply, Reply::Data { rung, .. } if *rung != 0)
}

// Puts the page of a read behind the others where its reply is a hint, if there is room.
fn put_hint(hints: &mut HintList, page: u32, reply: &Reply)
    ensures { hints.new ≡ hints_after (Verb.Read page) reply.now hints.old }
{
    if is_hint(reply) {
        hints.put(page);
    }
}

// The reply of a call of one page, from that of its refresh.
fn reply_of_refresh(reply: RefreshReply) -> Reply
    ensures { result ≡ reply_of_refresh reply }
{
    match reply {
        RefreshReply::Moved => Reply::Moved,
        RefreshReply::Changed => Reply::Changed,
        RefreshReply::Empty => Reply::Empty,
        RefreshReply::Uncorrectable => Reply::Uncorrectable,
        RefreshReply::NoRoom => Reply::NoRoom,
        RefreshReply::ReadOnly => Reply::ReadOnly,
        RefreshReply::Failed => Reply::Failed,
        RefreshReply::DieFault { die } => Reply::DieFault { die },
    }
}

// Serves a call that refreshes no page, on its channel. The data of a write are made in `bytes`.
fn serve_on_one<D: Die, P: Policy>(
    alloc: Global,
    channels: &mut [Channel<D, P>],
    worker: &mut Worker,
    bytes: &mut [u8],
    call: &TraceCall,
) -> Result<Reply, ServeStop>
    requires may { MayServe (settings worker.old)
        (map (λ channel. seen channel.kept (P.told channel.policy)) channels.old) [] call.now }
    requires verb { IsFalse (refreshes call.now.verb) }
    requires bytes { length bytes.old ≡ worker.old.shape.bytes }
    ensures same { settings worker.new ≡ settings worker.old }
    ensures bytes { length bytes.new ≡ length bytes.old }
    ensures serves { ServesOnOne (settings worker.old)
        (map (λ channel. seen channel.kept (P.told channel.policy)) channels.old)
        (map (λ channel. seen channel.kept (P.told channel.policy)) channels.new) call.now result }
{
    let count = channels.len();
    let channel = channel_of(&call.verb, count);
    match call_on(alloc, worker, &mut channels[channel], bytes, call, count) {
        Ok(reply) => Ok(reply),
        Err(stop) => Err(stop_on(channel, stop)),
    }
}

/// Serves a call of a trace, and answers its reply. A read whose rung isn't 0 puts its page behind the hints, where there is
/// room; a drain takes hints in front. The data of a write are made in `bytes`. Where the history of a channel has no room for
/// the call's next entry, that channel is named and the call ends there; a drain has then taken the hint of the page that it
/// was to refresh. Where memory is refused, some entries of the call may have been made.
pub fn serve_one<D: Die, P: Policy>(
    alloc: Global,
    channels: &mut [Channel<D, P>],
    worker: &mut Worker,
    hints: &mut HintList,
    bytes: &mut [u8],
    call: &TraceCall,
) -> Result<Reply, ServeStop>
    requires may { MayServe (settings worker.old)
        (map (λ channel. seen channel.kept (P.told channel.policy)) channels.old) hints.old call.now }
    requires bytes { length bytes.old ≡ worker.old.shape.bytes }
    ensures same { settings worker.new ≡ settings worker.old }
    ensures bytes { length bytes.new ≡ length bytes.old }
    ensures serves { Serves (settings worker.old)
        (map (λ channel. seen channel.kept (P.told channel.policy)) channels.old)
        (map (λ channel. seen channel.kept (P.told channel.policy)) channels.new) hints.old hints.new call.now result }
{
    match &call.verb {
        Verb::Drain { count } => drain(alloc, channels, worker, hints, call.tag, *count),
        Verb::Refresh { page } => {
            let reply = refresh_page(channels, worker, call.tag, *page)?;
            Ok(reply_of_refresh(reply))
        }
        Verb::Read { page } => {
            let reply = serve_on_one(alloc, channels, worker, bytes, call)?;
            put_hint(hints, *page, &reply);
            Ok(reply)
        }
        Verb::Write { .. } | Verb::Trim { .. } | Verb::Collect { .. } | Verb::Age { .. } => {
            serve_on_one(alloc, channels, worker, bytes, call)
        }
    }
}

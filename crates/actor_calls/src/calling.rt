// A call that refreshes no page of a hint, on its channel.
ghost use Rattle.std.specs.Prelude.{◌≡◌, ◌≤◌, Some, length};
ghost use Rattle.actor_calls.specs.Ended.{EndsAmong};
ghost use Rattle.actor_calls.specs.Known.{IsKnown};
ghost use Rattle.chan_calls.specs.Caller.{SameCaller};
ghost use Rattle.ctl.specs.Asked.{FitsDrive, HasOwnData, settings};
ghost use Rattle.run_laws.specs.ServedRuns.{channel_of};
ghost use Rattle.shared_steps.specs.Sharing.{view_of_shared};

use crate::content::content_into;
use crate::copying::{collect, refresh};
use crate::reading::read;
use crate::single::{age, trim};
use crate::writing::write;
use chan_calls::{Gate, Worker};
use onfi_cmd::Die;
use shared_steps::{Contents, Shared};
use ssd_geo::{Reply, StepStop, TraceCall, Verb};
use std::alloc::Global;
use std::sync::Wait;
use victim::Policy;

// Serves a call that takes no hint, on its channel, of so many. The data of a write are made in `bytes`.
pub fn call_on<R: Wait, D: Die, P: Policy, J: Contents, G: Gate>(
    rt: &R,
    alloc: Global,
    worker: &mut Worker,
    channel: &mut Shared<'_, R, D, P, J>,
    bytes: &mut [u8],
    gate: &G,
    call: &TraceCall,
    at: usize,
    channels: usize,
) -> Result<Reply, StepStop>
    requires low { 1 ≤ channels }
    requires high { channels ≤ 8 }
    requires at { channel_of channels call.now.verb ≡ Some at }
    requires fits { FitsDrive worker.old.shape channels call.now.verb }
    requires known { IsKnown (settings worker.old) call.now.tag.actor
        (view_of_shared channel.old.turns.now channel.old.pass J.contents) }
    requires own_data { HasOwnData worker.old.shape.bytes call.now.tag call.now.verb J.contents }
    requires bytes { length bytes.old ≡ worker.old.shape.bytes }
    ensures settings { settings worker.new ≡ settings worker.old }
    ensures bytes { length bytes.new ≡ length bytes.old }
    ensures caller { SameCaller (view_of_shared channel.old.turns.now channel.old.pass J.contents)
        (view_of_shared channel.new.turns.now channel.new.pass J.contents) }
    ensures known { IsKnown (settings worker.old) call.now.tag.actor
        (view_of_shared channel.new.turns.now channel.new.pass J.contents) }
    ensures ends { EndsAmong channel.old.turns.now.start J.contents channels at call.now.tag call.now.verb
        (view_of_shared channel.old.turns.now channel.old.pass J.contents).seen
        (view_of_shared channel.new.turns.now channel.new.pass J.contents).seen result }
{
    let tag = call.tag;
    match &call.verb {
        Verb::Write { page, content } => {
            content_into(content, bytes);
            write(rt, worker, channel, gate, tag, *page, bytes, channels)
        }
        Verb::Read { page } => read(alloc, worker, channel, gate, tag, *page, channels),
        Verb::Trim { page } => trim(channel, tag, *page, channels),
        Verb::Refresh { page } => refresh(worker, channel, gate, tag, *page, channels),
        Verb::Collect { channel: on } => collect(worker, channel, gate, tag, *on, channels),
        Verb::Age {
            channel: on,
            die,
            sb,
            amount,
        } => age(channel, tag, *on, *die, *sb, *amount, channels),
        Verb::Drain { .. } => unreachable!(),
    }
}

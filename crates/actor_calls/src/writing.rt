// A write of a page, with its reply. It makes room for itself, and may wait.
ghost use Rattle.std.specs.Prelude.{◌≡◌, ◌≤◌, ◌<◌, ◌/◌, ◌%◌, length};
ghost use Rattle.actor_calls.specs.Ended.{EndsForEachWith};
ghost use Rattle.chan_calls.specs.Caller.{SameCaller, Serves, TakesData};
ghost use Rattle.chan_calls.specs.Calls.{WritesData};
ghost use Rattle.collector.specs.Writes.{MayWrite};
ghost use Rattle.shared_steps.specs.Sharing.{view_of_shared};
ghost use Rattle.shared_steps.specs.Tracing.{stands_just_for};
ghost use Rattle.ssd_geo.specs.declared.trace.Content.{Content};
ghost use Rattle.ssd_geo.specs.declared.trace.Verb.{Verb};

use crate::replying::reply_to_write;
use crate::single::row_of;
use calls_among_others::writes_among_are_writes;
use chan_calls::{Gate, Worker};
use onfi_cmd::Die;
use race_laws::writes_stop_begun;
use shared_steps::{Contents, Shared};
use shared_writes::write_shared;
use ssd_geo::{Reply, StepStop, Tag};
use std::sync::Wait;
use victim::Policy;

// Writes data to a page on its channel, of so many.
pub fn write<R: Wait, D: Die, P: Policy, J: Contents, G: Gate>(
    rt: &R,
    worker: &mut Worker,
    steps: &mut Shared<'_, R, D, P, J>,
    gate: &G,
    tag: Tag,
    page: u32,
    bytes: &[u8],
    channels: usize,
) -> Result<Reply, StepStop>
    requires low { 1 ≤ channels }
    requires high { channels ≤ 8 }
    requires actor { Serves (view_of_shared steps.old.turns.now steps.old.pass J.contents) tag.actor }
    requires row { page / channels < worker.old.shape.rows }
    requires bytes { length bytes.now ≡ worker.old.shape.bytes }
    requires takes { TakesData (view_of_shared steps.old.turns.now steps.old.pass J.contents) tag bytes.now }
    requires may { MayWrite worker.old (view_of_shared steps.old.turns.now steps.old.pass J.contents)
        (stands_just_for steps.old.turns.now.start J.contents) tag bytes.now }
    ensures worker { worker.new ≡ record worker.old { data_bytes = worker.new.data_bytes } }
    ensures caller { SameCaller (view_of_shared steps.old.turns.now steps.old.pass J.contents)
        (view_of_shared steps.new.turns.now steps.new.pass J.contents) }
    ensures goes_on { WritesData worker.old
        (view_of_shared steps.old.turns.now steps.old.pass J.contents)
        (view_of_shared steps.new.turns.now steps.new.pass J.contents)
        (stands_just_for steps.old.turns.now.start J.contents)
        (stands_just_for steps.new.turns.now.start J.contents) tag bytes.now }
    ensures ends { (content : Content) → EndsForEachWith worker.old
        (view_of_shared steps.old.turns.now steps.old.pass J.contents)
        (stands_just_for steps.old.turns.now.start J.contents) channels (page % channels) tag
        (Verb.Write page content) bytes.now
        (view_of_shared steps.new.turns.now steps.new.pass J.contents).seen result }
{
    writes_among_are_writes();
    writes_stop_begun();
    match write_shared(rt, worker, steps, gate, tag, row_of(page, channels), bytes) {
        Ok(ended) => Ok(reply_to_write(ended)),
        Err(stop) => Err(stop),
    }
}

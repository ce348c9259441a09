// The calls that copy pages: a refresh and a collect.
ghost use Rattle.std.specs.Prelude.{◌≡◌, ◌≤◌, ◌<◌, ◌/◌, ◌%◌};
ghost use Rattle.actor_calls.specs.Ended.{EndsForEach};
ghost use Rattle.chan_calls.specs.Caller.{SameCaller, Serves};
ghost use Rattle.chan_calls.specs.Calls.{GoesOnFor};
ghost use Rattle.chan_calls.specs.Workers.{MayCall};
ghost use Rattle.ssd_geo.specs.declared.trace.Verb.{Verb};

use crate::replying::{reply_of_refresh, reply_to_collect};
use crate::single::row_of;
use calls_among_others::{collects_among_are_collects, refresh_calls_among_are_refreshes};
use chan_calls::{Gate, Steps, Worker};
use race_laws::{collects_stop_begun, refreshes_stop_begun};
use ssd_geo::{Reply, StepStop, Tag};

// Refreshes a page on its channel, of so many.
pub fn refresh<S: Steps, G: Gate>(
    worker: &mut Worker,
    steps: &mut S,
    gate: &G,
    tag: Tag,
    page: u32,
    channels: usize,
) -> Result<Reply, StepStop>
    requires low { 1 ≤ channels }
    requires high { channels ≤ 8 }
    requires actor { Serves (S.view steps.old) tag.actor }
    requires row { page / channels < worker.old.shape.rows }
    requires may { MayCall worker.old (S.view steps.old) (S.stands steps.old) }
    ensures worker { worker.new ≡ record worker.old { data_bytes = worker.new.data_bytes } }
    ensures caller { SameCaller (S.view steps.old) (S.view steps.new) }
    ensures goes_on { GoesOnFor worker.old
        (S.view steps.old) (S.view steps.new) (S.stands steps.old) (S.stands steps.new) }
    ensures ends { EndsForEach worker.old (S.view steps.old) (S.stands steps.old) channels (page % channels) tag
        (Verb.Refresh page) (S.view steps.new).seen result }
{
    refresh_calls_among_are_refreshes();
    refreshes_stop_begun();
    match refresh::refresh(worker, steps, gate, tag, row_of(page, channels)) {
        Ok(reply) => Ok(reply_of_refresh(reply)),
        Err(stop) => Err(stop),
    }
}

// Makes a collection on a channel, of so many.
pub fn collect<S: Steps, G: Gate>(
    worker: &mut Worker,
    steps: &mut S,
    gate: &G,
    tag: Tag,
    channel: u8,
    channels: usize,
) -> Result<Reply, StepStop>
    requires actor { Serves (S.view steps.old) tag.actor }
    requires may { MayCall worker.old (S.view steps.old) (S.stands steps.old) }
    ensures worker { worker.new ≡ record worker.old { data_bytes = worker.new.data_bytes } }
    ensures caller { SameCaller (S.view steps.old) (S.view steps.new) }
    ensures goes_on { GoesOnFor worker.old
        (S.view steps.old) (S.view steps.new) (S.stands steps.old) (S.stands steps.new) }
    ensures ends { EndsForEach worker.old (S.view steps.old) (S.stands steps.old) channels channel tag
        (Verb.Collect channel) (S.view steps.new).seen result }
{
    collects_among_are_collects();
    collects_stop_begun();
    match collector::collect(worker, steps, gate, tag) {
        Ok(ended) => Ok(reply_to_collect(ended)),
        Err(stop) => Err(stop),
    }
}

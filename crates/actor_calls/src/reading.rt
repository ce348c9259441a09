// A read of a page, with its reply.
ghost use Rattle.std.specs.Prelude.{◌≡◌, ◌≤◌, ◌<◌, ◌/◌, ◌%◌};
ghost use Rattle.actor_calls.specs.Ended.{EndsForEach};
ghost use Rattle.chan_calls.specs.Caller.{SameCaller, Serves};
ghost use Rattle.chan_calls.specs.Calls.{GoesOnFor};
ghost use Rattle.chan_calls.specs.Workers.{MayCall};
ghost use Rattle.ssd_geo.specs.declared.trace.Verb.{Verb};

use crate::replying::reply_of;
use crate::single::row_of;
use calls_among_others::reads_among_are_reads;
use chan_calls::{Gate, Steps, Worker};
use race_laws::reads_stop_begun;
use ssd_geo::{Reply, StepStop, Tag};
use std::alloc::Global;

// Reads a page on its channel, of so many. The memory for its reply is set aside before it looks: so a read that was made is
// answered.
pub fn read<S: Steps, G: Gate>(
    alloc: Global,
    worker: &mut Worker,
    steps: &mut S,
    gate: &G,
    tag: Tag,
    page: u32,
    channels: usize,
) -> Result<Reply, StepStop>
    requires low { 1 ≤ channels }
    requires high { channels ≤ 8 }
    requires actor { Serves (S.view steps.old) tag.actor }
    requires row { page / channels < worker.old.shape.rows }
    requires may { MayCall worker.old (S.view steps.old) (S.stands steps.old) }
    ensures worker { worker.new ≡ record worker.old { data_bytes = worker.new.data_bytes } }
    ensures caller { SameCaller (S.view steps.old) (S.view steps.new) }
    ensures goes_on { GoesOnFor worker.old
        (S.view steps.old) (S.view steps.new) (S.stands steps.old) (S.stands steps.new) }
    ensures ends { EndsForEach worker.old (S.view steps.old) (S.stands steps.old) channels (page % channels) tag
        (Verb.Read page) (S.view steps.new).seen result }
{
    reads_among_are_reads();
    reads_stop_begun();
    let Ok(room) = Vec::with_capacity(alloc, worker.shape().bytes as usize) else {
        return Err(StepStop::Memory);
    };
    let answer = worker.read(steps, gate, tag, row_of(page, channels))?;
    Ok(reply_of(room, answer, worker))
}

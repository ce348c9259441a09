// A read of a row, with its reply.
ghost use Rattle.std.specs.Prelude.{◌≡◌, ◌<◌, IfOk, None};
ghost use Rattle.alone_calls.specs.AloneCalls.{BreaksOffRead, IfNoRoom, OnMemory, RepliesRead};
ghost use Rattle.chan_calls.specs.Caller.{HasLookRoom, SameCaller};
ghost use Rattle.chan_calls.specs.Calls.{GoesOnFor, reply_of};
ghost use Rattle.chan_calls.specs.Workers.{MayCall};

use chan_calls::{OpenGate, ReadReply, Steps, Worker};
use ssd_geo::{Items, Memory, Reply, StepStop, Tag};
use std::alloc::Global;

// The reply of a read, with a copy of the data that the worker recovered.
fn reply_of(alloc: Global, answer: ReadReply, worker: &Worker) -> Result<Reply, Memory>
    ensures { IfOk result (λ reply. reply ≡ reply_of answer worker.now.data_bytes) }
{
    match answer {
        ReadReply::Empty => Ok(Reply::Empty),
        ReadReply::Uncorrectable => Ok(Reply::Uncorrectable),
        ReadReply::DieFault { die } => Ok(Reply::DieFault { die }),
        ReadReply::Bytes { rung } => match Vec::from_slice(alloc, worker.bytes()) {
            Ok(bytes) => Ok(Reply::Data {
                rung,
                bytes: Items::new(bytes),
            }),
            Err(_) => Err(Memory),
        },
    }
}

/// Reads a row.
pub fn read<S: Steps>(
    alloc: Global,
    worker: &mut Worker,
    steps: &mut S,
    tag: Tag,
    row: u32,
) -> Result<Reply, StepStop>
    requires alone { (S.view steps.old).number ≡ None }
    requires row { row < worker.old.shape.rows }
    requires may { MayCall worker.old (S.view steps.old) (S.stands steps.old) }
    ensures worker { worker.new ≡ record worker.old { data_bytes = worker.new.data_bytes } }
    ensures caller { SameCaller (S.view steps.old) (S.view steps.new) }
    ensures goes_on { GoesOnFor worker.old
        (S.view steps.old) (S.view steps.new) (S.stands steps.old) (S.stands steps.new) }
    ensures room { IfNoRoom (S.view steps.old) (S.view steps.new)
        (HasLookRoom (S.view steps.old).limit (S.view steps.old).seen) result }
    ensures memory { OnMemory result
        (BreaksOffRead worker.old (S.view steps.old) (S.view steps.new) (S.stands steps.old) tag row) }
    ensures ok { IfOk result (λ reply.
        RepliesRead worker.old (S.view steps.old) (S.view steps.new) (S.stands steps.old) tag row reply) }
{
    let answer = worker.read(steps, &OpenGate, tag, row)?;
    match reply_of(alloc, answer, worker) {
        Ok(reply) => Ok(reply),
        Err(Memory) => Err(StepStop::Memory),
    }
}

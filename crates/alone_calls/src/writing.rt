// A write of data to a row, with the rounds that make room for it.
ghost use Rattle.std.specs.Prelude.{◌≡◌, ◌<◌, [], None, length};
ghost use Rattle.alone_calls.specs.AloneCalls.{EndsWrite, FindsRoom};
ghost use Rattle.chan_calls.specs.Caller.{SameCaller, TakesData};
ghost use Rattle.chan_calls.specs.Calls.{WritesData};
ghost use Rattle.collector.specs.AloneReplies.{reply_to_write};
ghost use Rattle.collector.specs.Writes.{MayWrite};
ghost use Rattle.ssd_histories.specs.History.{open_looks};

use chan_calls::{OpenGate, Steps, Worker, copies_alone_are_copies};
use collector::WriteReply;
use ssd_geo::{Reply, StepStop, Tag};

// The reply of a write that ended so.
fn reply_to_write(ended: WriteReply) -> Reply
    ensures { result ≡ reply_to_write ended }
{
    match ended {
        WriteReply::Written => Reply::Ok,
        WriteReply::Full => Reply::Full,
        WriteReply::ReadOnly => Reply::ReadOnly,
        WriteReply::DieFault { die } => Reply::DieFault { die },
    }
}

/// Writes data to a row. After each program that answered FAIL it tries again, and where it needs room
/// it makes a round first.
pub fn write<S: Steps>(
    worker: &mut Worker,
    steps: &mut S,
    tag: Tag,
    row: u32,
    bytes: &[u8],
) -> Result<Reply, StepStop>
    requires alone { (S.view steps.old).number ≡ None }
    requires none_open { open_looks (S.view steps.old).seen ≡ [] }
    requires row { row < worker.old.shape.rows }
    requires bytes { length bytes.now ≡ worker.old.shape.bytes }
    requires takes { TakesData (S.view steps.old) tag bytes.now }
    requires may { MayWrite worker.old (S.view steps.old) (S.stands steps.old) tag bytes.now }
    ensures worker { worker.new ≡ record worker.old { data_bytes = worker.new.data_bytes } }
    ensures caller { SameCaller (S.view steps.old) (S.view steps.new) }
    ensures goes_on { WritesData worker.old
        (S.view steps.old) (S.view steps.new) (S.stands steps.old) (S.stands steps.new) tag bytes.now }
    ensures room { FindsRoom (S.view steps.old) (S.view steps.new) }
    ensures ends { EndsWrite worker.old (S.view steps.old) (S.view steps.new) (S.stands steps.old)
        tag row bytes.now result }
{
    copies_alone_are_copies();
    match collector::write(worker, steps, &OpenGate, tag, row, bytes) {
        Ok(ended) => Ok(reply_to_write(ended)),
        Err(stop) => Err(stop),
    }
}

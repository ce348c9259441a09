// A collect, with its rounds.
ghost use Rattle.std.specs.Prelude.{◌≡◌, [], None};
ghost use Rattle.alone_calls.specs.AloneCalls.{EndsCollect, FindsRoom};
ghost use Rattle.chan_calls.specs.Caller.{SameCaller};
ghost use Rattle.chan_calls.specs.Calls.{GoesOnFor};
ghost use Rattle.chan_calls.specs.Workers.{MayCall};
ghost use Rattle.collector.specs.AloneReplies.{reply_to_collect};
ghost use Rattle.ssd_histories.specs.History.{open_looks};

use chan_calls::{OpenGate, Steps, Worker, copies_alone_are_copies};
use collector::CollectReply;
use ssd_geo::{Reply, StepStop, Tag};

// The reply of a collect that ended so.
fn reply_to_collect(ended: CollectReply) -> Reply
    ensures { result ≡ reply_to_collect ended }
{
    match ended {
        CollectReply::Collected { sb } => Reply::Collected { sb },
        CollectReply::Retired { sb } => Reply::Retired { sb },
        CollectReply::DieFault { die } => Reply::DieFault { die },
        CollectReply::Idle => Reply::Idle,
    }
}

/// Makes rounds until one is decided, or the note after it says that there is nothing to do.
pub fn collect<S: Steps>(worker: &mut Worker, steps: &mut S, tag: Tag) -> Result<Reply, StepStop>
    requires alone { (S.view steps.old).number ≡ None }
    requires none_open { open_looks (S.view steps.old).seen ≡ [] }
    requires may { MayCall worker.old (S.view steps.old) (S.stands steps.old) }
    ensures worker { worker.new ≡ record worker.old { data_bytes = worker.new.data_bytes } }
    ensures caller { SameCaller (S.view steps.old) (S.view steps.new) }
    ensures goes_on { GoesOnFor worker.old
        (S.view steps.old) (S.view steps.new) (S.stands steps.old) (S.stands steps.new) }
    ensures room { FindsRoom (S.view steps.old) (S.view steps.new) }
    ensures ends { EndsCollect worker.old (S.view steps.old) (S.view steps.new) (S.stands steps.old) tag result }
{
    copies_alone_are_copies();
    match collector::collect(worker, steps, &OpenGate, tag) {
        Ok(ended) => Ok(reply_to_collect(ended)),
        Err(stop) => Err(stop),
    }
}

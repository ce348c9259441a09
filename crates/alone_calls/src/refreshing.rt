// A refresh of a row, with its reply.
ghost use Rattle.std.specs.Prelude.{◌≡◌, ◌<◌, IfOk, None};
ghost use Rattle.alone_calls.specs.AloneCalls.{IfNoRoom, OnMemory, RepliesRefresh};
ghost use Rattle.chan_calls.specs.Caller.{HasLookRoom, SameCaller};
ghost use Rattle.chan_calls.specs.Calls.{GoesOnFor};
ghost use Rattle.chan_calls.specs.Workers.{MayCall};

use chan_calls::{OpenGate, Steps, Worker};
use refresh::refreshes_alone_are_refreshes;
use ssd_geo::{RefreshReply, StepStop, Tag};

/// Copies the page that a row names to a new slot.
pub fn refresh<S: Steps>(
    worker: &mut Worker,
    steps: &mut S,
    tag: Tag,
    row: u32,
) -> Result<RefreshReply, StepStop>
    requires alone { (S.view steps.old).number ≡ None }
    requires row { row < worker.old.shape.rows }
    requires may { MayCall worker.old (S.view steps.old) (S.stands steps.old) }
    ensures worker { worker.new ≡ record worker.old { data_bytes = worker.new.data_bytes } }
    ensures caller { SameCaller (S.view steps.old) (S.view steps.new) }
    ensures goes_on { GoesOnFor worker.old
        (S.view steps.old) (S.view steps.new) (S.stands steps.old) (S.stands steps.new) }
    ensures room { IfNoRoom (S.view steps.old) (S.view steps.new)
        (HasLookRoom (S.view steps.old).limit (S.view steps.old).seen) result }
    ensures memory { OnMemory result ((S.view steps.new).seen ≡ (S.view steps.old).seen) }
    ensures ok { IfOk result (λ reply.
        RepliesRefresh worker.old (S.view steps.old) (S.view steps.new) (S.stands steps.old) tag row reply) }
{
    refreshes_alone_are_refreshes();
    refresh::refresh(worker, steps, &OpenGate, tag, row)
}

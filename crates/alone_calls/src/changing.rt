// The calls that make one entry: a trim and an ageing.
ghost use Rattle.std.specs.Prelude.{◌≡◌, ◌≤◌, ◌<◌, IfOk, None, OnOk};
ghost use Rattle.alone_calls.specs.AloneCalls.{IfNoRoom, OnMemory};
ghost use Rattle.chan_calls.specs.Caller.{HasStepRoom, SameCaller};
ghost use Rattle.chan_calls.specs.Stepping.{GoesOn};
ghost use Rattle.run_laws.specs.RepliedCalls.{HasAged};
ghost use Rattle.ssd_histories.specs.ServedCalls.{after_trim};

use chan_calls::Steps;
use chan_state::AgeAnswer;
use ssd_geo::{Reply, StepStop, Tag};

/// Empties a row.
pub fn trim<S: Steps>(steps: &mut S, tag: Tag, row: u32) -> Result<(), StepStop>
    requires alone { (S.view steps.old).number ≡ None }
    requires row { row < (S.view steps.old).shape.rows }
    ensures caller { SameCaller (S.view steps.old) (S.view steps.new) }
    ensures goes_on { GoesOn (S.view steps.old) (S.view steps.new) (S.stands steps.old) (S.stands steps.new) }
    ensures room { IfNoRoom (S.view steps.old) (S.view steps.new)
        (HasStepRoom (S.view steps.old).limit (S.view steps.old).seen) result }
    ensures memory { OnMemory result ((S.view steps.new).seen ≡ (S.view steps.old).seen) }
    ensures ok { OnOk result ((S.view steps.new).seen ≡ after_trim tag row (S.view steps.old).seen) }
{
    steps.trim(tag, row)
}

/// Ages a block of a die.
pub fn age<S: Steps>(
    steps: &mut S,
    tag: Tag,
    die: u8,
    sb: u16,
    amount: u16,
) -> Result<Reply, StepStop>
    requires alone { (S.view steps.old).number ≡ None }
    requires die { die < (S.view steps.old).shape.dies }
    requires sb { sb < (S.view steps.old).shape.superblocks }
    requires amount { 1 ≤ amount }
    requires high { amount ≤ 16383 }
    ensures caller { SameCaller (S.view steps.old) (S.view steps.new) }
    ensures goes_on { GoesOn (S.view steps.old) (S.view steps.new) (S.stands steps.old) (S.stands steps.new) }
    ensures room { IfNoRoom (S.view steps.old) (S.view steps.new)
        (HasStepRoom (S.view steps.old).limit (S.view steps.old).seen) result }
    ensures memory { OnMemory result ((S.view steps.new).seen ≡ (S.view steps.old).seen) }
    ensures ok { IfOk result (λ reply. HasAged tag die sb amount (S.view steps.old).seen (S.view steps.new).seen reply) }
{
    match steps.age(tag, die, sb, amount) {
        Ok(AgeAnswer::Aged) => Ok(Reply::Ok),
        Ok(AgeAnswer::DieFault { die }) => Ok(Reply::DieFault { die }),
        Err(stop) => Err(stop),
    }
}

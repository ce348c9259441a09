// One round of a collection.
ghost use Rattle.std.specs.Prelude.{◌≡◌};
ghost use Rattle.chan_calls.specs.Caller.{SameCaller, Serves};
ghost use Rattle.chan_calls.specs.Calls.{GoesOnFor};
ghost use Rattle.chan_calls.specs.Workers.{MayCall};
ghost use Rattle.collector.specs.Rounds.{MakesRound};

use crate::emptying::empty;
use crate::replies::RoundReply;
use chan_calls::{Gate, Steps, Worker};
use chan_state::PickAnswer;
use ssd_geo::{StepStop, Tag};

/// Picks a victim, or takes the one that there is, copies its live pages out, and erases it. Where the
/// history has no room, or memory is refused, the steps before that stand, and no look is open.
pub fn round<S: Steps, G: Gate>(
    worker: &mut Worker,
    steps: &mut S,
    gate: &G,
    tag: Tag,
) -> Result<RoundReply, StepStop>
    requires actor { Serves (S.view steps.old) tag.actor }
    requires may { MayCall worker.old (S.view steps.old) (S.stands steps.old) }
    ensures worker { worker.new ≡ record worker.old { data_bytes = worker.new.data_bytes } }
    ensures caller { SameCaller (S.view steps.old) (S.view steps.new) }
    ensures goes_on { GoesOnFor worker.old
        (S.view steps.old) (S.view steps.new) (S.stands steps.old) (S.stands steps.new) }
    ensures made { MakesRound worker.old (S.view steps.old) (S.stands steps.old)
        tag (S.view steps.new).seen result }
{
    match steps.pick(tag)? {
        PickAnswer::Picked { sb } => empty(worker, steps, gate, tag, sb),
        PickAnswer::Busy { sb } => empty(worker, steps, gate, tag, sb),
        PickAnswer::ReadOnly | PickAnswer::NoGarbage => Ok(RoundReply::Left),
    }
}

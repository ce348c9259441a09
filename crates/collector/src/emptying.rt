// The part of a round after its pick: the victim's live pages are copied out, and it is erased.
ghost use Rattle.std.specs.Prelude.{◌≡◌};
ghost use Rattle.chan_calls.specs.Caller.{SameCaller, Serves};
ghost use Rattle.chan_calls.specs.Calls.{GoesOnFor};
ghost use Rattle.chan_calls.specs.Stepping.{GoesOn};
ghost use Rattle.chan_calls.specs.Workers.{MayCall};
ghost use Rattle.collector.specs.Emptying.{Empties, Erases, TakesNext, next_of_copy, reply_of_erase};

use crate::replies::RoundReply;
use chan_calls::{CopyReply, Gate, Steps, Worker};
use chan_state::{EraseAnswer, LiveAnswer};
use ssd_geo::{StepStop, Tag};

/// What became of the next live page of a victim.
#[derive(Drop)]
pub enum Next {
    /// It was copied, or is live no more.
    Copied,
    /// The victim had none.
    NoneLive,
    /// The round is at its end.
    Ended { reply: RoundReply },
}

// What a copy's reply says of its page.
fn next_of_copy(reply: CopyReply) -> Next
    ensures { result ≡ next_of_copy reply }
{
    match reply {
        CopyReply::NoRoom | CopyReply::ReadOnly => Next::Ended {
            reply: RoundReply::Left,
        },
        CopyReply::DieFault { die } => Next::Ended {
            reply: RoundReply::DieFault { die },
        },
        CopyReply::Moved
        | CopyReply::Changed
        | CopyReply::Condemned
        | CopyReply::Uncorrectable
        | CopyReply::Failed => Next::Copied,
    }
}

// Copies the live page of least index, if the superblock is the victim and has one.
fn copy_next<S: Steps, G: Gate>(
    worker: &mut Worker,
    steps: &mut S,
    gate: &G,
    tag: Tag,
    sb: u16,
) -> Result<Next, StepStop>
    requires actor { Serves (S.view steps.old) tag.actor }
    requires may { MayCall worker.old (S.view steps.old) (S.stands steps.old) }
    ensures worker { worker.new ≡ record worker.old { data_bytes = worker.new.data_bytes } }
    ensures caller { SameCaller (S.view steps.old) (S.view steps.new) }
    ensures goes_on { GoesOnFor worker.old
        (S.view steps.old) (S.view steps.new) (S.stands steps.old) (S.stands steps.new) }
    ensures made { TakesNext worker.old (S.view steps.old) (S.stands steps.old)
        tag sb (S.view steps.new).seen result }
{
    match steps.look_live(tag, sb)? {
        LiveAnswer::Found(look) => Ok(next_of_copy(worker.copy(steps, gate, tag, look, true))),
        LiveAnswer::NoneLive => Ok(Next::NoneLive),
        LiveAnswer::NotVictim => Ok(Next::Ended {
            reply: RoundReply::Left,
        }),
    }
}

// The reply that the answer to an erase gives.
fn reply_of_erase(sb: u16, answer: EraseAnswer) -> RoundReply
    ensures { result ≡ reply_of_erase sb answer }
{
    match answer {
        EraseAnswer::Erased => RoundReply::Erased { sb },
        EraseAnswer::FailedErase { .. } => RoundReply::Retired { sb },
        EraseAnswer::DieFault { die } => RoundReply::DieFault { die },
        EraseAnswer::NotVictim | EraseAnswer::Live { .. } | EraseAnswer::Pinned { .. } => {
            RoundReply::Left
        }
    }
}

// Erases the victim, if it may be erased.
fn erase<S: Steps>(steps: &mut S, tag: Tag, sb: u16) -> Result<RoundReply, StepStop>
    requires actor { Serves (S.view steps.old) tag.actor }
    ensures caller { SameCaller (S.view steps.old) (S.view steps.new) }
    ensures goes_on { GoesOn (S.view steps.old) (S.view steps.new) (S.stands steps.old) (S.stands steps.new) }
    ensures made { Erases (S.view steps.old) (S.stands steps.old) tag sb (S.view steps.new).seen result }
{
    let answer = steps.erase_if(tag, sb)?;
    Ok(reply_of_erase(sb, answer))
}

/// Copies the live pages out of a victim while it has one, and erases it.
pub fn empty<S: Steps, G: Gate>(
    worker: &mut Worker,
    steps: &mut S,
    gate: &G,
    tag: Tag,
    sb: u16,
) -> Result<RoundReply, StepStop>
    requires actor { Serves (S.view steps.old) tag.actor }
    requires may { MayCall worker.old (S.view steps.old) (S.stands steps.old) }
    ensures worker { worker.new ≡ record worker.old { data_bytes = worker.new.data_bytes } }
    ensures caller { SameCaller (S.view steps.old) (S.view steps.new) }
    ensures goes_on { GoesOnFor worker.old
        (S.view steps.old) (S.view steps.new) (S.stands steps.old) (S.stands steps.new) }
    ensures made { Empties worker.old (S.view steps.old) (S.stands steps.old)
        tag sb (S.view steps.new).seen result }
{
    'copies: loop {
        match copy_next(worker, steps, gate, tag, sb)? {
            Next::Copied => {}
            Next::NoneLive => return erase(steps, tag, sb),
            Next::Ended { reply } => return Ok(reply),
        }
    }
}

// A collection: rounds, with a note after each that decides nothing.
ghost use Rattle.std.specs.Prelude.{◌≡◌};
ghost use Rattle.chan_calls.specs.Caller.{SameCaller, Serves};
ghost use Rattle.chan_calls.specs.Calls.{GoesOnFor};
ghost use Rattle.chan_calls.specs.Stepping.{GoesOn};
ghost use Rattle.chan_calls.specs.Workers.{MayCall};
ghost use Rattle.collector.specs.Collects.{MakesCollect, MakesTurn, Notes, decided_by, is_idle, reply_of_note};

use crate::replies::{CollectReply, RoundReply};
use crate::rounds::round;
use chan_calls::{Gate, Steps, Worker};
use chan_state::Note;
use ssd_geo::{StepStop, Tag};

// Whether a note says that there is nothing to do.
fn is_idle(note: &Note) -> bool
    ensures { result ≡ is_idle note.now }
{
    match note.victim {
        None => note.garbage == 0 || note.free == 0,
        Some(_) => note.live > 0 || note.pins > 0,
    }
}

// The reply that a note gives after a round that decided none.
fn reply_of_note(note: &Note) -> Option<CollectReply>
    ensures { result ≡ reply_of_note note.now }
{
    if is_idle(note) {
        Some(CollectReply::Idle)
    } else {
        None
    }
}

// The reply that a round decides.
fn decided_by(ended: RoundReply) -> Option<CollectReply>
    ensures { result ≡ decided_by ended }
{
    match ended {
        RoundReply::Erased { sb } => Some(CollectReply::Collected { sb }),
        RoundReply::Retired { sb } => Some(CollectReply::Retired { sb }),
        RoundReply::DieFault { die } => Some(CollectReply::DieFault { die }),
        RoundReply::Left => None,
    }
}

// Notes how full the channel is, and says what that gives a collection.
fn note_turn<S: Steps>(steps: &mut S, tag: Tag) -> Result<Option<CollectReply>, StepStop>
    requires actor { Serves (S.view steps.old) tag.actor }
    ensures caller { SameCaller (S.view steps.old) (S.view steps.new) }
    ensures goes_on { GoesOn (S.view steps.old) (S.view steps.new) (S.stands steps.old) (S.stands steps.new) }
    ensures made { Notes (S.view steps.old) tag (S.view steps.new).seen result }
{
    let note = steps.note(tag)?;
    Ok(reply_of_note(&note))
}

// A round, and the note after it where it decided nothing. None says that it goes on.
fn turn<S: Steps, G: Gate>(
    worker: &mut Worker,
    steps: &mut S,
    gate: &G,
    tag: Tag,
) -> Result<Option<CollectReply>, StepStop>
    requires actor { Serves (S.view steps.old) tag.actor }
    requires may { MayCall worker.old (S.view steps.old) (S.stands steps.old) }
    ensures worker { worker.new ≡ record worker.old { data_bytes = worker.new.data_bytes } }
    ensures caller { SameCaller (S.view steps.old) (S.view steps.new) }
    ensures goes_on { GoesOnFor worker.old
        (S.view steps.old) (S.view steps.new) (S.stands steps.old) (S.stands steps.new) }
    ensures made { MakesTurn worker.old (S.view steps.old) (S.stands steps.old)
        tag (S.view steps.new).seen result }
{
    let ended = round(worker, steps, gate, tag)?;
    match decided_by(ended) {
        Some(reply) => Ok(Some(reply)),
        None => note_turn(steps, tag),
    }
}

/// Makes rounds until one is decided, or the note after it says that there is nothing to do. Where the
/// history has no room, or memory is refused, the steps before that stand, and no look is open.
pub fn collect<S: Steps, G: Gate>(
    worker: &mut Worker,
    steps: &mut S,
    gate: &G,
    tag: Tag,
) -> Result<CollectReply, StepStop>
    requires actor { Serves (S.view steps.old) tag.actor }
    requires may { MayCall worker.old (S.view steps.old) (S.stands steps.old) }
    ensures worker { worker.new ≡ record worker.old { data_bytes = worker.new.data_bytes } }
    ensures caller { SameCaller (S.view steps.old) (S.view steps.new) }
    ensures goes_on { GoesOnFor worker.old
        (S.view steps.old) (S.view steps.new) (S.stands steps.old) (S.stands steps.new) }
    ensures made { MakesCollect worker.old (S.view steps.old) (S.stands steps.old)
        tag (S.view steps.new).seen result }
{
    'rounds: loop {
        match turn(worker, steps, gate, tag)? {
            Some(reply) => return Ok(reply),
            None => {}
        }
    }
}

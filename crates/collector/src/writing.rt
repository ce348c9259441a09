// A write that makes room for itself.
ghost use Rattle.std.specs.Prelude.{◌≡◌, ◌<◌, [], None, length};
ghost use Rattle.chan_calls.specs.Caller.{SameCaller, Serves, TakesData};
ghost use Rattle.chan_calls.specs.Calls.{WritesData};
ghost use Rattle.collector.specs.Writes.{MayWrite, TurnsWrite, WritesRow, reply_of_round};
ghost use Rattle.ssd_histories.specs.History.{open_looks};

use crate::replies::{RoundReply, WriteReply};
use crate::rounds::round;
use chan_calls::{Gate, Steps, Worker, copies_alone_are_copies};
use chan_state::WriteAnswer;
use ssd_geo::{StepStop, Tag};

// The reply of a write that a round ends.
fn reply_of_round(ended: RoundReply) -> Option<WriteReply>
    ensures { result ≡ reply_of_round ended }
{
    match ended {
        RoundReply::DieFault { die } => Some(WriteReply::DieFault { die }),
        RoundReply::Erased { .. } | RoundReply::Retired { .. } | RoundReply::Left => None,
    }
}

/// Writes the data once, and makes a round where that needs room. None says that the write goes on: a program
/// answered FAIL, or a round made room. It makes no further turn, so that a caller among others may wait between turns.
pub fn write_or_round<S: Steps, G: Gate>(
    worker: &mut Worker,
    steps: &mut S,
    gate: &G,
    tag: Tag,
    row: u32,
    bytes: &[u8],
) -> Result<Option<WriteReply>, StepStop>
    requires actor { Serves (S.view steps.old) tag.actor }
    requires row { row < worker.old.shape.rows }
    requires bytes { length bytes.now ≡ worker.old.shape.bytes }
    requires takes { TakesData (S.view steps.old) tag bytes.now }
    requires may { MayWrite worker.old (S.view steps.old) (S.stands steps.old) tag bytes.now }
    ensures worker { worker.new ≡ record worker.old { data_bytes = worker.new.data_bytes } }
    ensures caller { SameCaller (S.view steps.old) (S.view steps.new) }
    ensures goes_on { WritesData worker.old
        (S.view steps.old) (S.view steps.new) (S.stands steps.old) (S.stands steps.new) tag bytes.now }
    ensures made { TurnsWrite worker.old (S.view steps.old) (S.stands steps.old)
        tag row bytes.now (S.view steps.new).seen result }
{
    match worker.write_once(steps, gate, tag, row, bytes)? {
        WriteAnswer::NeedRoom => {
            let ended = round(worker, steps, gate, tag)?;
            Ok(reply_of_round(ended))
        }
        WriteAnswer::Failed { .. } => Ok(None),
        WriteAnswer::Written { .. } => Ok(Some(WriteReply::Written)),
        WriteAnswer::DieFault { die } => Ok(Some(WriteReply::DieFault { die })),
        WriteAnswer::ReadOnly => Ok(Some(WriteReply::ReadOnly)),
        WriteAnswer::Full => Ok(Some(WriteReply::Full)),
    }
}

/// Writes data to a row. After a program that answered FAIL it tries again, and where it needs room it
/// makes a round first. Where the history has no room, or memory is refused, the steps before that
/// stand, and no look is open.
pub fn write<S: Steps, G: Gate>(
    worker: &mut Worker,
    steps: &mut S,
    gate: &G,
    tag: Tag,
    row: u32,
    bytes: &[u8],
) -> Result<WriteReply, StepStop>
    requires alone { (S.view steps.old).number ≡ None }
    requires none_open { open_looks (S.view steps.old).seen ≡ [] }
    requires row { row < worker.old.shape.rows }
    requires bytes { length bytes.now ≡ worker.old.shape.bytes }
    requires takes { TakesData (S.view steps.old) tag bytes.now }
    requires may { MayWrite worker.old (S.view steps.old) (S.stands steps.old) tag bytes.now }
    ensures worker { worker.new ≡ record worker.old { data_bytes = worker.new.data_bytes } }
    ensures caller { SameCaller (S.view steps.old) (S.view steps.new) }
    ensures goes_on { WritesData worker.old
        (S.view steps.old) (S.view steps.new) (S.stands steps.old) (S.stands steps.new) tag bytes.now }
    ensures made { WritesRow worker.old (S.view steps.old) (S.stands steps.old)
        tag row bytes.now (S.view steps.new).seen result }
{
    copies_alone_are_copies();
    'turns: loop {
        match write_or_round(worker, steps, gate, tag, row, bytes)? {
            Some(reply) => return Ok(reply),
            None => {}
        }
    }
}

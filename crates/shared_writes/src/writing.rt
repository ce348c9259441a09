// A write of one of several callers, which makes room for itself.
ghost use Rattle.std.specs.Prelude.{◌≡◌, ◌<◌, length};
ghost use Rattle.chan_calls.specs.Caller.{SameCaller, Serves, TakesData};
ghost use Rattle.chan_calls.specs.Calls.{WritesData};
ghost use Rattle.collector.specs.Writes.{MayWrite, WritesRow};
ghost use Rattle.shared_steps.specs.Sharing.{view_of_shared};
ghost use Rattle.shared_steps.specs.Tracing.{stands_just_for};

use chan_calls::{Gate, Worker};
use collector::{WriteReply, write_or_round};
use onfi_cmd::Die;
use shared_steps::{Contents, Shared};
use ssd_geo::{StepStop, Tag};
use std::sync::Wait;
use victim::Policy;

/// Writes data to a row. After a program that answered FAIL it tries again, and where it needs room it
/// makes a round first; it goes on for as long as the other callers take the room. Where the history has
/// no room, or memory is refused, the steps before that stand.
pub fn write_shared<R: Wait, D: Die, P: Policy, J: Contents, G: Gate>(
    rt: &R,
    worker: &mut Worker,
    steps: &mut Shared<'_, R, D, P, J>,
    gate: &G,
    tag: Tag,
    row: u32,
    bytes: &[u8],
) -> Result<WriteReply, StepStop>
    requires actor { Serves (view_of_shared steps.old.turns.now steps.old.pass J.contents) tag.actor }
    requires row { row < worker.old.shape.rows }
    requires bytes { length bytes.now ≡ worker.old.shape.bytes }
    requires takes { TakesData (view_of_shared steps.old.turns.now steps.old.pass J.contents) tag bytes.now }
    requires may { MayWrite worker.old (view_of_shared steps.old.turns.now steps.old.pass J.contents)
        (stands_just_for steps.old.turns.now.start J.contents) tag bytes.now }
    ensures worker { worker.new ≡ record worker.old { data_bytes = worker.new.data_bytes } }
    ensures caller { SameCaller (view_of_shared steps.old.turns.now steps.old.pass J.contents)
        (view_of_shared steps.new.turns.now steps.new.pass J.contents) }
    ensures goes_on { WritesData worker.old
        (view_of_shared steps.old.turns.now steps.old.pass J.contents)
        (view_of_shared steps.new.turns.now steps.new.pass J.contents)
        (stands_just_for steps.old.turns.now.start J.contents)
        (stands_just_for steps.new.turns.now.start J.contents) tag bytes.now }
    ensures made { WritesRow worker.old
        (view_of_shared steps.old.turns.now steps.old.pass J.contents)
        (stands_just_for steps.old.turns.now.start J.contents)
        tag row bytes.now (view_of_shared steps.new.turns.now steps.new.pass J.contents).seen result }
{
    'turns: for _ in rt.forever() {
        match write_or_round(worker, steps, gate, tag, row, bytes)? {
            Some(reply) => return Ok(reply),
            None => {}
        }
    }
    unreachable!()
}

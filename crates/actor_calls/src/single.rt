// The calls that make one entry: a trim and an ageing.
ghost use Rattle.std.specs.Prelude.{◌≡◌, ◌≤◌, ◌<◌, ◌/◌, ◌%◌};
ghost use Rattle.actor_calls.specs.Ended.{EndsForAll};
ghost use Rattle.chan_calls.specs.Caller.{SameCaller, Serves};
ghost use Rattle.chan_calls.specs.Stepping.{GoesOn};
ghost use Rattle.ssd_geo.specs.declared.trace.Verb.{Verb};

use crate::replying::reply_to_age;
use calls_among_others::{ages_among_are_ages, trims_among_are_trims};
use chan_calls::Steps;
use race_laws::{ages_stop_begun, trims_stop_begun};
use ssd_geo::{Reply, StepStop, Tag};

// The row of a page on its channel, of so many.
pub fn row_of(page: u32, channels: usize) -> u32
    requires low { 1 ≤ channels }
    requires high { channels ≤ 8 }
    ensures { result ≡ page / channels }
{
    page / channels as u32
}

// Trims a page on its channel, of so many.
pub fn trim<S: Steps>(
    steps: &mut S,
    tag: Tag,
    page: u32,
    channels: usize,
) -> Result<Reply, StepStop>
    requires low { 1 ≤ channels }
    requires high { channels ≤ 8 }
    requires actor { Serves (S.view steps.old) tag.actor }
    requires row { page / channels < (S.view steps.old).shape.rows }
    ensures caller { SameCaller (S.view steps.old) (S.view steps.new) }
    ensures goes_on { GoesOn (S.view steps.old) (S.view steps.new) (S.stands steps.old) (S.stands steps.new) }
    ensures ends { EndsForAll channels (page % channels) tag (Verb.Trim page)
        (S.view steps.old).seen (S.view steps.new).seen result }
{
    trims_among_are_trims();
    trims_stop_begun();
    match steps.trim(tag, row_of(page, channels)) {
        Ok(()) => Ok(Reply::Ok),
        Err(stop) => Err(stop),
    }
}

// Ages a block of a die on its channel, of so many.
pub fn age<S: Steps>(
    steps: &mut S,
    tag: Tag,
    channel: u8,
    die: u8,
    sb: u16,
    amount: u16,
    channels: usize,
) -> Result<Reply, StepStop>
    requires actor { Serves (S.view steps.old) tag.actor }
    requires die { die < (S.view steps.old).shape.dies }
    requires sb { sb < (S.view steps.old).shape.superblocks }
    requires amount { 1 ≤ amount }
    requires high { amount ≤ 16383 }
    ensures caller { SameCaller (S.view steps.old) (S.view steps.new) }
    ensures goes_on { GoesOn (S.view steps.old) (S.view steps.new) (S.stands steps.old) (S.stands steps.new) }
    ensures ends { EndsForAll channels channel tag (Verb.Age channel die sb amount)
        (S.view steps.old).seen (S.view steps.new).seen result }
{
    ages_among_are_ages();
    ages_stop_begun();
    match steps.age(tag, die, sb, amount) {
        Ok(answer) => Ok(reply_to_age(answer)),
        Err(stop) => Err(stop),
    }
}

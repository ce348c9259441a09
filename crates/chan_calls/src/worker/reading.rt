// One read of a row.
ghost use Rattle.std.specs.Prelude.{◌≡◌, ◌<◌, IfOk, ⊤};
ghost use Rattle.chan_calls.specs.Caller.{HasLookRoom, SameCaller, Serves};
ghost use Rattle.chan_calls.specs.Calls.{GoesOnFor, KeepsData, ReadsRow, reply_of};
ghost use Rattle.chan_calls.specs.Ready.{IsReplyOf};
ghost use Rattle.chan_calls.specs.Stepping.{IsStepped};
ghost use Rattle.chan_calls.specs.Workers.{MayCall};

use super::Worker;
use crate::climb::{Climbed, climb};
use crate::gate::Gate;
use crate::read_reply::ReadReply;
use crate::steps::Steps;
use chan_state::LookAnswer;
use retry_ladder::Answer;
use ssd_geo::{StepStop, Tag};

// The reply that a ladder's answer gives.
fn reply_of(answer: Answer) -> ReadReply
    ensures { IsReplyOf answer result }
{
    match answer {
        Answer::Recovered { rung } => ReadReply::Bytes { rung },
        Answer::Uncorrectable => ReadReply::Uncorrectable,
    }
}

impl Worker {
    /// Reads a row.
    pub fn read<S: Steps, G: Gate>(
        &mut self,
        steps: &mut S,
        gate: &G,
        tag: Tag,
        row: u32,
    ) -> Result<ReadReply, StepStop>
        requires actor { Serves (S.view steps.old) tag.actor }
        requires row { row < self.old.shape.rows }
        requires may { MayCall self.old (S.view steps.old) (S.stands steps.old) }
        ensures worker { self.new ≡ record self.old { data_bytes = self.new.data_bytes } }
        ensures keeps { KeepsData self.old self.new result }
        ensures caller { SameCaller (S.view steps.old) (S.view steps.new) }
        ensures room { IsStepped HasLookRoom (λ now reply seen. ⊤) tag
            (S.view steps.old) (S.view steps.new) result }
        ensures goes_on { GoesOnFor self.old
            (S.view steps.old) (S.view steps.new) (S.stands steps.old) (S.stands steps.new) }
        ensures ok { IfOk result (λ reply. ReadsRow self.old (S.view steps.old) (S.stands steps.old)
            tag row (S.view steps.new).seen (reply_of reply self.new.data_bytes)) }
    {
        match steps.look(tag, row)? {
            LookAnswer::Empty => Ok(ReadReply::Empty),
            LookAnswer::Lost => Ok(ReadReply::Uncorrectable),
            LookAnswer::Found(look) => {
                self.ladder.begin(&look);
                match climb(
                    &mut self.ladder,
                    &mut self.decoder,
                    &mut self.room.word,
                    steps,
                    gate,
                    tag,
                    &look,
                ) {
                    Climbed::Answered => {}
                    Climbed::Failed { die } => {
                        steps.leave(tag, look.at);
                        return Ok(ReadReply::DieFault { die });
                    }
                }
                let answer = self.ladder.answer();
                steps.leave(tag, look.at);
                Ok(reply_of(answer))
            }
        }
    }
}

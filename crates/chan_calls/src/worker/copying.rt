// One copy of the page of a look that was just made.
ghost use Rattle.std.specs.Prelude.{◌≡◌, IsTrue};
ghost use Rattle.chan_calls.specs.Caller.{IfBound, IsOwn, MayLeave, SameCaller, Serves};
ghost use Rattle.chan_calls.specs.Calls.{GoesOnFor};
ghost use Rattle.chan_calls.specs.Copied.{CopiesPage, EndsCopy, IsFresh, reply_of_condemn, reply_of_move};
ghost use Rattle.chan_calls.specs.Moving.{MayMove};
ghost use Rattle.chan_calls.specs.Workers.{MayCall};
ghost use Rattle.retry_ladder.specs.View.{state_in};
ghost use Rattle.ssd_geo.specs.Ladder.{has_answer};

use super::Worker;
use crate::climb::{Climbed, climb};
use crate::copy_reply::CopyReply;
use crate::gate::Gate;
use crate::steps::Steps;
use chan_state::{CondemnAnswer, MoveAnswer};
use retry_ladder::{Answer, Ladder};
use ssd_geo::{Look, Tag};

// The reply that the answer to a move gives.
fn reply_of_move(answer: MoveAnswer) -> CopyReply
    ensures { result ≡ reply_of_move answer }
{
    match answer {
        MoveAnswer::Changed { .. } => CopyReply::Changed,
        MoveAnswer::ReadOnly => CopyReply::ReadOnly,
        MoveAnswer::NoRoom => CopyReply::NoRoom,
        MoveAnswer::Moved { .. } => CopyReply::Moved,
        MoveAnswer::Failed { .. } => CopyReply::Failed,
        MoveAnswer::DieFault { die } => CopyReply::DieFault { die },
    }
}

// The reply that the answer to a condemnation gives.
fn reply_of_condemn(answer: CondemnAnswer) -> CopyReply
    ensures { result ≡ reply_of_condemn answer }
{
    match answer {
        CondemnAnswer::Changed { .. } => CopyReply::Changed,
        CondemnAnswer::Condemned => CopyReply::Condemned,
    }
}

// Does what a copy does at the answer of its look's ladder.
fn end_copy<S: Steps>(ladder: &Ladder, steps: &mut S, tag: Tag, at: u32, condemn: bool) -> CopyReply
    requires actor { Serves (S.view steps.old) tag.actor }
    requires answered { IsTrue (has_answer (state_in ladder.now)) }
    requires may { MayMove (S.view steps.old) tag at }
    requires shape { ladder.now.shape ≡ (S.view steps.old).shape }
    requires state { IfBound (S.view steps.old) at (λ state. state ≡ state_in ladder.now) }
    ensures caller { SameCaller (S.view steps.old) (S.view steps.new) }
    ensures open { IsOwn (S.view steps.new) tag at }
    ensures ended { EndsCopy (S.view steps.old) (S.view steps.new)
        (S.stands steps.old) (S.stands steps.new) tag at condemn (state_in ladder.now) result }
{
    match ladder.answer() {
        Answer::Recovered { .. } => reply_of_move(steps.move_if(tag, at, ladder.word())),
        Answer::Uncorrectable => {
            if condemn {
                reply_of_condemn(steps.condemn_if(tag, at))
            } else {
                CopyReply::Uncorrectable
            }
        }
    }
}

impl Worker {
    /// Copies the page of a look that was just made, and leaves the look. A page that can't be recovered
    /// is condemned, if the caller says so.
    pub fn copy<S: Steps, G: Gate>(
        &mut self,
        steps: &mut S,
        gate: &G,
        tag: Tag,
        look: Look,
        condemn: bool,
    ) -> CopyReply
        requires actor { Serves (S.view steps.old) tag.actor }
        requires fresh { IsFresh (S.view steps.old) tag look }
        requires may { MayCall self.old (S.view steps.old) (S.stands steps.old) }
        ensures worker { self.new ≡ record self.old { data_bytes = self.new.data_bytes } }
        ensures caller { SameCaller (S.view steps.old) (S.view steps.new) }
        ensures goes_on { GoesOnFor self.old
            (S.view steps.old) (S.view steps.new) (S.stands steps.old) (S.stands steps.new) }
        ensures copies { CopiesPage self.old (S.view steps.old) (S.stands steps.old)
            tag look.at condemn (S.view steps.new).seen result }
    {
        self.ladder.begin(&look);
        match climb(
            &mut self.ladder,
            &mut self.decoder,
            &mut self.room.word,
            steps,
            gate,
            tag,
            &look,
        ) {
            Climbed::Answered => {}
            Climbed::Failed { die } => {
                steps.leave(tag, look.at);
                return CopyReply::DieFault { die };
            }
        }
        let reply = end_copy(&self.ladder, steps, tag, look.at, condemn);
        steps.leave(tag, look.at);
        reply
    }
}

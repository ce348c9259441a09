// A caller of a channel behind a lock.
ghost use Rattle.std.specs.Prelude.{◌≡◌, ◌≢◌, IsSome, Some};
ghost use Rattle.std.specs.Coded.{Coded-set};
ghost use Rattle.atomic_table.specs.Seated.{table_id_coded};
ghost use Rattle.shared_steps.specs.Sharing.{IsTurnOf, pass_held};

use crate::contents::Contents;
use crate::traced::Traced;
use chan_calls::Steps;
use chan_state::{
    AgeAnswer, CondemnAnswer, EraseAnswer, LiveAnswer, LookAnswer, MoveAnswer, Note, PickAnswer,
    SenseAnswer, WriteAnswer,
};
use onfi_cmd::Die;
use ssd_geo::{Place, StepStop, Tag};
use std::sync::Wait;
use turn_table::{Pass, Turn, Turns};
use victim::Policy;

/// A caller of a channel behind a lock, among others. It makes each step in a turn of its own, and waits for that.
#[derive(Drop)]
pub struct Shared<'a, R, D: Die, P: Policy, J: Contents> {
    rt: &'a R,
    turns: &'a Turns<Traced<D, P, J>>,
    // It is away only in a step.
    pass: Option<Pass>,
    ghost held: { IsSome pass },
    ghost of_lock: { (pass_held turns.now.lock pass).lock ≡ turns.now.lock } by { Coded-set table_id_coded _ _ },
}

impl<'a, R, D: Die, P: Policy, J: Contents> Shared<'a, R, D, P, J> {
    /// Steps the channel behind a lock with a pass of that lock.
    pub fn new(rt: &'a R, turns: &'a Turns<Traced<D, P, J>>, pass: Pass) -> Shared<'a, R, D, P, J>
        requires { pass.lock ≡ turns.now.lock }
        ensures pass { result.pass ≡ Some pass }
        ensures turns { result.turns.now ≡ turns.now }
    {
        Shared {
            rt,
            turns,
            pass: Some(pass),
        }
    }

    /// The pass, which has seen what the caller has.
    pub fn into_pass(self) -> Pass
        ensures pass { self.entry.pass ≡ Some result }
        ensures lock { result.lock ≡ self.entry.turns.now.lock }
    {
        let Shared { pass, .. } = self;
        pass.unwrap()
    }
}

impl<R: Wait, D: Die, P: Policy, J: Contents> Steps for Shared<'_, R, D, P, J> {
    ghost use Rattle.shared_steps.specs.Tracing.{stands_just_for};
    ghost use Rattle.shared_steps.specs.Sharing.{view_of_shared};

    ghost view = { λ shared. view_of_shared shared.turns.now shared.pass J.contents };

    ghost stands = { λ shared. stands_just_for shared.turns.now.start J.contents };

    fn look(&mut self, tag: Tag, row: u32) -> Result<LookAnswer, StepStop> {
        let mut turn = enter(self.rt, self.turns, &mut self.pass);
        let answer = turn.value().look(tag, row);
        self.pass = Some(self.turns.give(turn));
        answer
    }

    fn sense(
        &mut self,
        tag: Tag,
        at: u32,
        place: Place,
        level: i16,
        out: &mut [u8],
    ) -> SenseAnswer {
        let mut turn = enter(self.rt, self.turns, &mut self.pass);
        let answer = turn.value().sense(tag, at, place, level, out);
        self.pass = Some(self.turns.give(turn));
        answer
    }

    fn leave(&mut self, tag: Tag, at: u32) {
        let mut turn = enter(self.rt, self.turns, &mut self.pass);
        turn.value().leave(tag, at);
        self.pass = Some(self.turns.give(turn));
    }

    fn write(&mut self, tag: Tag, row: u32, word: &[u8]) -> Result<WriteAnswer, StepStop> {
        let mut turn = enter(self.rt, self.turns, &mut self.pass);
        let answer = turn.value().write(tag, row, word);
        self.pass = Some(self.turns.give(turn));
        answer
    }

    fn trim(&mut self, tag: Tag, row: u32) -> Result<(), StepStop> {
        let mut turn = enter(self.rt, self.turns, &mut self.pass);
        let answer = turn.value().trim(tag, row);
        self.pass = Some(self.turns.give(turn));
        answer
    }

    fn move_if(&mut self, tag: Tag, at: u32, word: &[u8]) -> MoveAnswer {
        let mut turn = enter(self.rt, self.turns, &mut self.pass);
        let answer = turn.value().move_if(tag, at, word);
        self.pass = Some(self.turns.give(turn));
        answer
    }

    fn condemn_if(&mut self, tag: Tag, at: u32) -> CondemnAnswer {
        let mut turn = enter(self.rt, self.turns, &mut self.pass);
        let answer = turn.value().condemn_if(tag, at);
        self.pass = Some(self.turns.give(turn));
        answer
    }

    fn pick(&mut self, tag: Tag) -> Result<PickAnswer, StepStop> {
        let mut turn = enter(self.rt, self.turns, &mut self.pass);
        let answer = turn.value().pick(tag);
        self.pass = Some(self.turns.give(turn));
        answer
    }

    fn look_live(&mut self, tag: Tag, sb: u16) -> Result<LiveAnswer, StepStop> {
        let mut turn = enter(self.rt, self.turns, &mut self.pass);
        let answer = turn.value().look_live(tag, sb);
        self.pass = Some(self.turns.give(turn));
        answer
    }

    fn erase_if(&mut self, tag: Tag, sb: u16) -> Result<EraseAnswer, StepStop> {
        let mut turn = enter(self.rt, self.turns, &mut self.pass);
        let answer = turn.value().erase_if(tag, sb);
        self.pass = Some(self.turns.give(turn));
        answer
    }

    fn age(&mut self, tag: Tag, die: u8, sb: u16, amount: u16) -> Result<AgeAnswer, StepStop> {
        let mut turn = enter(self.rt, self.turns, &mut self.pass);
        let answer = turn.value().age(tag, die, sb, amount);
        self.pass = Some(self.turns.give(turn));
        answer
    }

    fn note(&mut self, tag: Tag) -> Result<Note, StepStop> {
        let mut turn = enter(self.rt, self.turns, &mut self.pass);
        let answer = turn.value().note(tag);
        self.pass = Some(self.turns.give(turn));
        answer
    }
}

// Takes a turn with the pass of a caller.
fn enter<R: Wait, D: Die, P: Policy, J: Contents>(
    rt: &R,
    turns: &Turns<Traced<D, P, J>>,
    pass: &mut Option<Pass>,
) -> Turn<Traced<D, P, J>>
    requires held { IsSome pass.old }
    requires lock { (pass_held turns.now.lock pass.old).lock ≡ turns.now.lock }
    requires number { (pass_held turns.now.lock pass.old).number ≢ 255 }
    ensures { IsTurnOf turns.now J.contents (pass_held turns.now.lock pass.old) result }
{
    let mut turn = turns.take(rt, pass.take().unwrap());
    turn.value().keeps_standing();
    turn
}

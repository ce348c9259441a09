// What a gate and a channel see of whole calls, in order.
ghost use Rattle.std.specs.Prelude.{◌≡◌};

use chan_calls::{Gate, Point, Steps};
use chan_state::{
    AgeAnswer, CondemnAnswer, EraseAnswer, LiveAnswer, LookAnswer, MoveAnswer, Note, PickAnswer,
    SenseAnswer, WriteAnswer,
};
use ssd_geo::{Place, StepStop, Tag};
use std::alloc::Global;
use std::sync::Mutex;

/// What a call does: it passes a moment, or makes a step.
#[derive(Clone, Copy, Debug, PartialEq, Eq)]
pub(crate) enum Act {
    Pass { at: Point },
    Look { by: Tag },
    Sense { by: Tag },
    Leave { by: Tag },
    Write { by: Tag },
    Move { by: Tag },
    Condemn { by: Tag },
    /// A step that no read, write or copy makes.
    Other { by: Tag },
}

/// What calls did, the first first.
#[derive(Drop)]
pub(crate) struct Record {
    acts: Mutex<Vec<Act>>,
}

impl Record {
    pub(crate) fn new(alloc: Global) -> Record {
        Record {
            acts: Mutex::new(Vec::new(alloc)),
        }
    }

    // One thread makes the calls, so the lock is free. What finds no memory is missing, and the test fails.
    fn add(&self, act: Act) {
        if let Some(mut acts) = self.acts.try_lock() {
            let _ = acts.push(act);
        }
    }

    pub(crate) fn finish(self) -> Vec<Act> {
        let Record { acts } = self;
        acts.into_inner()
    }
}

impl Gate for Record {
    fn pass(&self, at: Point) {
        self.add(Act::Pass { at });
    }
}

/// The steps of a channel, each of which is recorded just before it is made.
#[derive(Drop)]
pub(crate) struct Recorded<'a, S: Steps> {
    steps: S,
    record: &'a Record,
}

impl<'a, S: Steps> Recorded<'a, S> {
    pub(crate) fn new(steps: S, record: &'a Record) -> Recorded<'a, S>
        ensures { result.steps ≡ steps }
    {
        Recorded { steps, record }
    }
}

impl<S: Steps> Steps for Recorded<'_, S> {
    ghost view = { λ recorded. S.view recorded.steps };

    ghost stands = { λ recorded. S.stands recorded.steps };

    fn look(&mut self, tag: Tag, row: u32) -> Result<LookAnswer, StepStop> {
        self.record.add(Act::Look { by: tag });
        self.steps.look(tag, row)
    }

    fn sense(
        &mut self,
        tag: Tag,
        at: u32,
        place: Place,
        level: i16,
        out: &mut [u8],
    ) -> SenseAnswer {
        self.record.add(Act::Sense { by: tag });
        self.steps.sense(tag, at, place, level, out)
    }

    fn leave(&mut self, tag: Tag, at: u32) {
        self.record.add(Act::Leave { by: tag });
        self.steps.leave(tag, at);
    }

    fn write(&mut self, tag: Tag, row: u32, word: &[u8]) -> Result<WriteAnswer, StepStop> {
        self.record.add(Act::Write { by: tag });
        self.steps.write(tag, row, word)
    }

    fn trim(&mut self, tag: Tag, row: u32) -> Result<(), StepStop> {
        self.record.add(Act::Other { by: tag });
        self.steps.trim(tag, row)
    }

    fn move_if(&mut self, tag: Tag, at: u32, word: &[u8]) -> MoveAnswer {
        self.record.add(Act::Move { by: tag });
        self.steps.move_if(tag, at, word)
    }

    fn condemn_if(&mut self, tag: Tag, at: u32) -> CondemnAnswer {
        self.record.add(Act::Condemn { by: tag });
        self.steps.condemn_if(tag, at)
    }

    fn pick(&mut self, tag: Tag) -> Result<PickAnswer, StepStop> {
        self.record.add(Act::Other { by: tag });
        self.steps.pick(tag)
    }

    fn look_live(&mut self, tag: Tag, sb: u16) -> Result<LiveAnswer, StepStop> {
        self.record.add(Act::Other { by: tag });
        self.steps.look_live(tag, sb)
    }

    fn erase_if(&mut self, tag: Tag, sb: u16) -> Result<EraseAnswer, StepStop> {
        self.record.add(Act::Other { by: tag });
        self.steps.erase_if(tag, sb)
    }

    fn age(&mut self, tag: Tag, die: u8, sb: u16, amount: u16) -> Result<AgeAnswer, StepStop> {
        self.record.add(Act::Other { by: tag });
        self.steps.age(tag, die, sb, amount)
    }

    fn note(&mut self, tag: Tag) -> Result<Note, StepStop> {
        self.record.add(Act::Other { by: tag });
        self.steps.note(tag)
    }
}

// A channel that stands for one start and one list of contents.
ghost use Rattle.std.specs.Prelude.{◌≡◌};
ghost use Rattle.chan_state.specs.ChannelState.{StandsFor};
ghost use Rattle.shared_steps.specs.Tracing.{IsTraced};

use crate::beginning::Beginning;
use crate::contents::Contents;
use chan_calls::Steps;
use chan_state::{
    AgeAnswer, Channel, CondemnAnswer, EraseAnswer, LiveAnswer, LookAnswer, MoveAnswer, Note,
    PickAnswer, SenseAnswer, WriteAnswer,
};
use onfi_cmd::Die;
use ssd_geo::{Place, StepStop, Tag};
use std::marker::{Model, PhantomData};
use turn_table::Standing;
use victim::Policy;

/// A channel that stands for the contents of `J`, and for the start with which it began. It may stand behind a
/// lock: its history is the lock's list.
#[derive(Drop)]
pub struct Traced<D: Die, P: Policy, J: Contents> {
    channel: Channel<D, P>,
    beginning: Beginning<D, P>,
    of: PhantomData<J>,
}

impl<D: Die, P: Policy, J: Contents> Model for Traced<D, P, J> {
    ghost use Rattle.chan_state.specs.ChannelState.{StandsFor};
    ghost use Rattle.shared_steps.specs.Tracing.{TracedState};

    ghost Value = { TracedState };

    ghost view = { λ a. record {
      channel = a.channel.kept;
      told = P.told a.channel.policy;
      start = a.beginning;
    } };

    ghost invariant = { λ a.
        StandsFor a.channel.kept (P.told a.channel.policy) a.beginning J.contents };
}

impl<D: Die, P: Policy, J: Contents> Standing for Traced<D, P, J> {
    ghost use Rattle.ssd_histories.specs.History.{history_of};

    type Start = Beginning<D, P>;

    ghost start = { λ traced. traced.start };

    ghost entries = { λ traced. history_of traced.channel.past };
}

impl<D: Die, P: Policy, J: Contents> Traced<D, P, J> {
    /// A channel that stands for this start.
    pub fn new(channel: Channel<D, P>, beginning: Beginning<D, P>) -> Traced<D, P, J>
        requires { StandsFor channel.kept (P.told channel.policy) beginning J.contents }
        ensures channel { result.channel ≡ channel.kept }
        ensures told { result.told ≡ P.told channel.policy }
        ensures start { result.start ≡ beginning }
    {
        Traced {
            channel,
            beginning,
            of: PhantomData,
        }
    }

    /// It stands for its start and the contents, so its history is lawful.
    pub fn keeps_standing(&self)
        ensures { IsTraced self.now J.contents }
    {
        let _ = &self.channel;
    }

    /// The channel.
    pub fn into_channel(self) -> Channel<D, P>
        ensures channel { result.kept ≡ self.channel }
        ensures told { P.told result.policy ≡ self.told }
        ensures stands { IsTraced self J.contents }
    {
        let Traced { channel, .. } = self;
        channel
    }
}

impl<D: Die, P: Policy, J: Contents> Steps for Traced<D, P, J> {
    ghost use Rattle.shared_steps.specs.Tracing.{stands_just_for, view_of_traced};

    ghost view = { λ traced. view_of_traced traced J.contents };

    ghost stands = { λ traced. stands_just_for traced.start J.contents };

    fn look(&mut self, tag: Tag, row: u32) -> Result<LookAnswer, StepStop> {
        self.channel.keeps_looks();
        self.channel.look(tag, row)
    }

    fn sense(
        &mut self,
        tag: Tag,
        at: u32,
        place: Place,
        level: i16,
        out: &mut [u8],
    ) -> SenseAnswer {
        self.channel.keeps_looks();
        self.channel.sense(tag, at, place, level, out)
    }

    fn leave(&mut self, tag: Tag, at: u32) {
        self.channel.keeps_looks();
        self.channel.leave(tag, at);
    }

    fn write(&mut self, tag: Tag, row: u32, word: &[u8]) -> Result<WriteAnswer, StepStop> {
        self.channel.keeps_looks();
        self.channel.write(tag, row, word)
    }

    fn trim(&mut self, tag: Tag, row: u32) -> Result<(), StepStop> {
        self.channel.keeps_looks();
        self.channel.trim(tag, row)
    }

    fn move_if(&mut self, tag: Tag, at: u32, word: &[u8]) -> MoveAnswer {
        self.channel.keeps_looks();
        self.channel.move_if(tag, at, word)
    }

    fn condemn_if(&mut self, tag: Tag, at: u32) -> CondemnAnswer {
        self.channel.keeps_looks();
        self.channel.condemn_if(tag, at)
    }

    fn pick(&mut self, tag: Tag) -> Result<PickAnswer, StepStop> {
        self.channel.keeps_looks();
        self.channel.pick(tag)
    }

    fn look_live(&mut self, tag: Tag, sb: u16) -> Result<LiveAnswer, StepStop> {
        self.channel.keeps_looks();
        self.channel.look_live(tag, sb)
    }

    fn erase_if(&mut self, tag: Tag, sb: u16) -> Result<EraseAnswer, StepStop> {
        self.channel.keeps_looks();
        self.channel.erase_if(tag, sb)
    }

    fn age(&mut self, tag: Tag, die: u8, sb: u16, amount: u16) -> Result<AgeAnswer, StepStop> {
        self.channel.keeps_looks();
        self.channel.age(tag, die, sb, amount)
    }

    fn note(&mut self, tag: Tag) -> Result<Note, StepStop> {
        self.channel.keeps_looks();
        self.channel.note(tag)
    }
}

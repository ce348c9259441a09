// A caller that is alone on a channel.
ghost use Rattle.std.specs.Prelude.{◌≡◌};
ghost use Rattle.chan_calls.specs.Alone.{view_of_lent};

use crate::steps::Steps;
use chan_state::{
    AgeAnswer, Channel, CondemnAnswer, EraseAnswer, LiveAnswer, LookAnswer, MoveAnswer, Note,
    PickAnswer, SenseAnswer, WriteAnswer,
};
use onfi_cmd::Die;
use ssd_geo::{Place, StepStop, Tag};
use victim::Policy;

/// A caller that is alone on a channel, and waits for none. It makes the calls of every actor, and
/// writes any data.
#[derive(Drop)]
pub struct Alone<'a, D: Die, P: Policy> {
    channel: &'a mut Channel<D, P>,
}

impl<'a, D: Die, P: Policy> Alone<'a, D, P> {
    /// Steps a channel, which is the lender's again once the caller is let go.
    pub fn new(channel: &'a mut Channel<D, P>) -> Alone<'a, D, P>
        ensures channel { result.channel.now ≡ channel.old }
        ensures reference { result.channel.ghost_name ≡ channel.entry.ghost_name }
    {
        Alone { channel }
    }
}

impl<D: Die, P: Policy> Steps for Alone<'_, D, P> {
    ghost use Rattle.chan_state.specs.ChannelState.{StandsFor};

    ghost view = { λ alone. view_of_lent alone.channel.now.kept alone.channel.ghost_name };

    ghost stands = { λ alone. StandsFor alone.channel.now.kept (P.told alone.channel.now.policy) };

    fn look(&mut self, tag: Tag, row: u32) -> Result<LookAnswer, StepStop> {
        self.channel.keeps_looks();
        self.channel.look(tag, row)
    }

    fn sense(
        &mut self,
        tag: Tag,
        at: u32,
        place: Place,
        level: i16,
        out: &mut [u8],
    ) -> SenseAnswer {
        self.channel.keeps_looks();
        self.channel.sense(tag, at, place, level, out)
    }

    fn leave(&mut self, tag: Tag, at: u32) {
        self.channel.keeps_looks();
        self.channel.leave(tag, at);
    }

    fn write(&mut self, tag: Tag, row: u32, word: &[u8]) -> Result<WriteAnswer, StepStop> {
        self.channel.keeps_looks();
        self.channel.write(tag, row, word)
    }

    fn trim(&mut self, tag: Tag, row: u32) -> Result<(), StepStop> {
        self.channel.keeps_looks();
        self.channel.trim(tag, row)
    }

    fn move_if(&mut self, tag: Tag, at: u32, word: &[u8]) -> MoveAnswer {
        self.channel.keeps_looks();
        self.channel.move_if(tag, at, word)
    }

    fn condemn_if(&mut self, tag: Tag, at: u32) -> CondemnAnswer {
        self.channel.keeps_looks();
        self.channel.condemn_if(tag, at)
    }

    fn pick(&mut self, tag: Tag) -> Result<PickAnswer, StepStop> {
        self.channel.keeps_looks();
        self.channel.pick(tag)
    }

    fn look_live(&mut self, tag: Tag, sb: u16) -> Result<LiveAnswer, StepStop> {
        self.channel.keeps_looks();
        self.channel.look_live(tag, sb)
    }

    fn erase_if(&mut self, tag: Tag, sb: u16) -> Result<EraseAnswer, StepStop> {
        self.channel.keeps_looks();
        self.channel.erase_if(tag, sb)
    }

    fn age(&mut self, tag: Tag, die: u8, sb: u16, amount: u16) -> Result<AgeAnswer, StepStop> {
        self.channel.keeps_looks();
        self.channel.age(tag, die, sb, amount)
    }

    fn note(&mut self, tag: Tag) -> Result<Note, StepStop> {
        self.channel.keeps_looks();
        self.channel.note(tag)
    }
}

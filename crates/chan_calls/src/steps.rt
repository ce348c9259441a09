// The steps of a channel, as whole calls make them.
ghost use Rattle.std.specs.Prelude.{◌≡◌, ◌≤◌, ◌<◌, IsTrue, length};
ghost use Rattle.chan_calls.specs.Caller.{CallerView, HasLookRoom, HasStepRoom, IfBound, IsBoundWord};
ghost use Rattle.chan_calls.specs.Caller.{IsOwn, MayLeave, SameCaller, Serves};
ghost use Rattle.chan_calls.specs.Collecting.{MakesErase, MakesLive, MakesNote, MakesPick};
ghost use Rattle.chan_calls.specs.Moving.{Condemns, IsRecoveredAs, MayCondemn, MayMove, Moves};
ghost use Rattle.chan_calls.specs.Sensing.{Leaves, MaySense, Senses};
ghost use Rattle.chan_calls.specs.Stepping.{GoesOn, IsStepped, MakesAge, MakesLook, MakesTrim, MakesWrite};
ghost use Rattle.chan_calls.specs.Stepping.{OfEachBase, WritesOn};
ghost use Rattle.ssd_geo.specs.Coding.{word_bytes_in};
ghost use Rattle.ssd_geo.specs.Ladder.{asks, uncorrectable};
ghost use Rattle.ssd_histories.specs.Ranges.{has_place};
ghost use Rattle.ssd_histories.specs.Start.{Start};
ghost use Rattle.ssd_geo.specs.declared.tag.Tag.{Tag};

use chan_state::{
    AgeAnswer, CondemnAnswer, EraseAnswer, LiveAnswer, LookAnswer, MoveAnswer, Note, PickAnswer,
    SenseAnswer, WriteAnswer,
};
use ssd_geo::{Place, StepStop, Tag};

/// A channel as one of its callers steps it. Between two steps of a caller the other callers may make
/// theirs; what the caller had seen of the history stays.
pub trait Steps {
    ghost use Rattle.std.specs.Prelude.{ℕ, List};

    /// What the caller knows.
    ghost view: { Self → CallerView };

    /// For which starts and contents the channel stands.
    ghost stands: { Self → Start → List (Tag × List ℕ) → Type 0 };

    /// Looks at a row.
    fn look(&mut self, tag: Tag, row: u32) -> Result<LookAnswer, StepStop>
        requires actor { Serves (view self.old) tag.actor }
        requires row { row < (view self.old).shape.rows }
        ensures same { SameCaller (view self.old) (view self.new) }
        ensures made { IsStepped HasLookRoom (MakesLook (view self.old).shape tag row) tag
            (view self.old) (view self.new) result }
        ensures goes_on { GoesOn (view self.old) (view self.new)
            (stands self.old) (stands self.new) };

    /// Senses a page for an open look.
    fn sense(&mut self, tag: Tag, at: u32, place: Place, level: i16, out: &mut [u8]) -> SenseAnswer
        requires actor { Serves (view self.old) tag.actor }
        requires may { MaySense (view self.old) tag at }
        requires place { IsTrue (has_place (view self.old).shape place) }
        requires word { length out.old ≡ word_bytes_in (view self.old).shape }
        requires asked { IfBound (view self.old) at (λ state. state ≡ asks place level) }
        ensures same { SameCaller (view self.old) (view self.new) }
        ensures word { length out.new ≡ length out.old }
        ensures made { Senses (view self.old) (view self.new)
            (stands self.old) (stands self.new) tag at place level out.old out.new result };

    /// Ends a look.
    fn leave(&mut self, tag: Tag, at: u32)
        requires actor { Serves (view self.old) tag.actor }
        requires open { IsOwn (view self.old) tag at }
        requires may { MayLeave (view self.old) at }
        ensures same { SameCaller (view self.old) (view self.new) }
        ensures made { Leaves (view self.old) (view self.new)
            (stands self.old) (stands self.new) tag at };

    /// Writes a word of a row to the next slot.
    fn write(&mut self, tag: Tag, row: u32, word: &[u8]) -> Result<WriteAnswer, StepStop>
        requires actor { Serves (view self.old) tag.actor }
        requires row { row < (view self.old).shape.rows }
        requires word { length word.now ≡ word_bytes_in (view self.old).shape }
        requires of_call { IsBoundWord (view self.old) tag row word.now }
        ensures same { SameCaller (view self.old) (view self.new) }
        ensures made { IsStepped HasStepRoom
            (MakesWrite (OfEachBase (view self.old) (stands self.old)) tag row) tag
            (view self.old) (view self.new) result }
        ensures goes_on { WritesOn (view self.old) (view self.new)
            (stands self.old) (stands self.new) tag row word.now };

    /// Empties a row.
    fn trim(&mut self, tag: Tag, row: u32) -> Result<(), StepStop>
        requires actor { Serves (view self.old) tag.actor }
        requires row { row < (view self.old).shape.rows }
        ensures same { SameCaller (view self.old) (view self.new) }
        ensures made { IsStepped HasStepRoom (MakesTrim tag row) tag
            (view self.old) (view self.new) result }
        ensures goes_on { GoesOn (view self.old) (view self.new)
            (stands self.old) (stands self.new) };

    /// Copies the page of a look to the next slot, where its row is as the look found it. The word is the
    /// one that the look's ladder recovered.
    fn move_if(&mut self, tag: Tag, at: u32, word: &[u8]) -> MoveAnswer
        requires actor { Serves (view self.old) tag.actor }
        requires may { MayMove (view self.old) tag at }
        requires word { length word.now ≡ word_bytes_in (view self.old).shape }
        requires recovered { IfBound (view self.old) at (IsRecoveredAs word.now) }
        ensures same { SameCaller (view self.old) (view self.new) }
        ensures made { Moves (view self.old) (view self.new)
            (stands self.old) (stands self.new) tag at word.now result };

    /// Makes the row of a look lost, where it is as the look found it. The look's ladder can't recover the
    /// page.
    fn condemn_if(&mut self, tag: Tag, at: u32) -> CondemnAnswer
        requires actor { Serves (view self.old) tag.actor }
        requires may { MayCondemn (view self.old) tag at }
        requires uncorrectable { IfBound (view self.old) at (λ state. state ≡ uncorrectable) }
        ensures same { SameCaller (view self.old) (view self.new) }
        ensures made { Condemns (view self.old) (view self.new)
            (stands self.old) (stands self.new) tag at result };

    /// Picks a victim.
    fn pick(&mut self, tag: Tag) -> Result<PickAnswer, StepStop>
        requires actor { Serves (view self.old) tag.actor }
        ensures same { SameCaller (view self.old) (view self.new) }
        ensures made { IsStepped HasStepRoom
            (MakesPick (OfEachBase (view self.old) (stands self.old)) tag) tag
            (view self.old) (view self.new) result }
        ensures goes_on { GoesOn (view self.old) (view self.new)
            (stands self.old) (stands self.new) };

    /// Looks at the live page of least index in the victim.
    fn look_live(&mut self, tag: Tag, sb: u16) -> Result<LiveAnswer, StepStop>
        requires actor { Serves (view self.old) tag.actor }
        ensures same { SameCaller (view self.old) (view self.new) }
        ensures made { IsStepped HasLookRoom
            (MakesLive (OfEachBase (view self.old) (stands self.old)) (view self.old).shape tag sb)
            tag (view self.old) (view self.new) result }
        ensures goes_on { GoesOn (view self.old) (view self.new)
            (stands self.old) (stands self.new) };

    /// Erases the victim, where it has no live page and no open look stands in it.
    fn erase_if(&mut self, tag: Tag, sb: u16) -> Result<EraseAnswer, StepStop>
        requires actor { Serves (view self.old) tag.actor }
        ensures same { SameCaller (view self.old) (view self.new) }
        ensures made { IsStepped HasStepRoom
            (MakesErase (OfEachBase (view self.old) (stands self.old)) tag sb) tag
            (view self.old) (view self.new) result }
        ensures goes_on { GoesOn (view self.old) (view self.new)
            (stands self.old) (stands self.new) };

    /// Ages a block of a die.
    fn age(&mut self, tag: Tag, die: u8, sb: u16, amount: u16) -> Result<AgeAnswer, StepStop>
        requires actor { Serves (view self.old) tag.actor }
        requires die { die < (view self.old).shape.dies }
        requires sb { sb < (view self.old).shape.superblocks }
        requires amount { 1 ≤ amount }
        requires high { amount ≤ 16383 }
        ensures same { SameCaller (view self.old) (view self.new) }
        ensures made { IsStepped HasStepRoom (MakesAge tag die sb amount) tag
            (view self.old) (view self.new) result }
        ensures goes_on { GoesOn (view self.old) (view self.new)
            (stands self.old) (stands self.new) };

    /// Tells how full the channel is.
    fn note(&mut self, tag: Tag) -> Result<Note, StepStop>
        requires actor { Serves (view self.old) tag.actor }
        ensures same { SameCaller (view self.old) (view self.new) }
        ensures made { IsStepped HasStepRoom (MakesNote tag) tag
            (view self.old) (view self.new) result }
        ensures goes_on { GoesOn (view self.old) (view self.new)
            (stands self.old) (stands self.new) };
}

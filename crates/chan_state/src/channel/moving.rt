// What becomes of the page of an open look.
ghost use Rattle.std.specs.Prelude.{◌≡◌, IfSome, length};
ghost use Rattle.ssd_geo.specs.Coding.{word_bytes_in};
ghost use Rattle.ssd_histories.specs.History.{look_by};
ghost use Rattle.ssd_histories.specs.OpenLooks.{look_at};
ghost use Rattle.chan_tables.specs.Condemning.{IsCondemnAnswer, kind_of_condemn};
ghost use Rattle.chan_state.specs.ChannelState.{Count, DiesStay};
ghost use Rattle.chan_state.specs.Condemning.{CondemnsFor, MayCondemn};
ghost use Rattle.chan_state.specs.Copying.{IsMoveAnswer, MayMove, Moves, MovesFor, fault_of_move};
ghost use Rattle.chan_state.specs.Steps.{AddsEntry};

use super::Channel;
use crate::{CondemnAnswer, MoveAnswer};
use onfi_cmd::Die;
use ssd_geo::Tag;
use victim::Policy;

impl<D: Die, P: Policy> Channel<D, P> {
    /// Copies a look's page to the next slot, where its row is as the look found it. The word is the one recovered.
    pub fn move_if(&mut self, tag: Tag, at: u32, word: &[u8]) -> MoveAnswer
        requires may { MayMove self.old.kept tag at }
        requires word { length word.now ≡ word_bytes_in self.old.kept.shape }
        ensures answer { IfSome (look_by tag (look_at self.old.kept.looks at)) (λ look.
            IsMoveAnswer self.old.kept look result) }
        ensures entry { Moves self.old.kept self.new.kept tag at result }
        ensures looks { self.new.kept.looks ≡ self.old.kept.looks }
        ensures faults { Count (fault_of_move result) self.old.kept self.new.kept }
        ensures view { P.told self.new.policy ≡ P.told self.old.policy }
        ensures stands { MovesFor self.old.kept self.new.kept at word.now }
    {
        self.kept.move_if(tag, at, word)
    }

    /// Makes the row of a look lost, where it is as the look found it. The page is one that can't be recovered.
    pub fn condemn_if(&mut self, tag: Tag, at: u32) -> CondemnAnswer
        requires { MayCondemn self.old.kept tag at }
        ensures answer { IfSome (look_by tag (look_at self.old.kept.looks at)) (λ look.
            IsCondemnAnswer self.old.kept.rows look result) }
        ensures entry { AddsEntry self.old.kept self.new.kept tag (kind_of_condemn at result) }
        ensures looks { self.new.kept.looks ≡ self.old.kept.looks }
        ensures dies { DiesStay self.old.kept self.new.kept }
        ensures view { P.told self.new.policy ≡ P.told self.old.policy }
        ensures stands { CondemnsFor self.old.kept self.new.kept at }
    {
        self.kept.condemn_if(tag, at)
    }
}

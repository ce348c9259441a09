// The senses of open looks.
ghost use Rattle.std.specs.Prelude.{◌≡◌, IsTrue, length};
ghost use Rattle.ssd_geo.specs.Coding.{word_bytes_in};
ghost use Rattle.ssd_histories.specs.Ranges.{has_place};
ghost use Rattle.chan_state.specs.ChannelState.{Count};
ghost use Rattle.chan_state.specs.Steps.{GivesBits, MaySense, Senses, SensesFor, fault_of_sense};

use super::Kept;
use crate::SenseAnswer;
use onfi_cmd::Die;
use ssd_geo::{Place, Tag};

impl<D: Die> Kept<D> {
    /// Senses a page for an open look.
    pub(crate) fn sense(
        &mut self,
        tag: Tag,
        at: u32,
        place: Place,
        level: i16,
        out: &mut [u8],
    ) -> SenseAnswer
        requires may { MaySense self.old tag at }
        requires place { IsTrue (has_place self.old.shape place) }
        requires word { length out.old ≡ word_bytes_in self.old.shape }
        ensures entry { Senses self.old self.new tag at place level result }
        ensures looks { self.new.looks ≡ self.old.looks }
        ensures bits { GivesBits self.old place level out.old out.new result }
        ensures faults { Count (fault_of_sense result) self.old self.new }
        ensures stands { SensesFor self.old self.new at place level out.new result }
    {
        match self.dies.sense(place, level, out) {
            Ok(()) => {
                self.tables.sensed(tag, at, place, level);
                SenseAnswer::Sensed
            }
            Err(_) => {
                self.tables.fault_sensed(tag, at, place, level);
                SenseAnswer::DieFault { die: place.die }
            }
        }
    }
}

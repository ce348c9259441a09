// The ageing of blocks.
ghost use Rattle.std.specs.Prelude.{◌<◌, IfOk};
ghost use Rattle.chan_state.specs.ChannelState.{KeepsStanding};
ghost use Rattle.chan_state.specs.Steps.{Ages, CountAt, HasStepRoom, IsRefused, fault_of_age};

use super::Kept;
use crate::AgeAnswer;
use onfi_cmd::Die;
use ssd_geo::{StepStop, Tag};

impl<D: Die> Kept<D> {
    /// Ages a block by an amount.
    pub(crate) fn age(
        &mut self,
        tag: Tag,
        die: u8,
        sb: u16,
        amount: u16,
    ) -> Result<AgeAnswer, StepStop>
        requires die { die < self.old.shape.dies }
        requires superblock { sb < self.old.shape.superblocks }
        ensures room { IsRefused (HasStepRoom self.old) self.old result }
        ensures ok { IfOk result (λ answer. Ages self.old self.new tag die sb amount answer) }
        ensures faults { CountAt fault_of_age self.old self.new result }
        ensures stands { KeepsStanding self.old self.new }
    {
        self.tables.make_room()?;
        match self.dies.age(die, sb, amount) {
            Ok(()) => {
                self.tables.aged(tag, die, sb, amount);
                Ok(AgeAnswer::Aged)
            }
            Err(_) => {
                self.tables.fault_aged(tag, die, sb, amount);
                Ok(AgeAnswer::DieFault { die })
            }
        }
    }
}

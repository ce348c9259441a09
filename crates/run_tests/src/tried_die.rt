// A die whose runs, loads and ageing can be made to fail.
ghost use Rattle.die_model.specs.Listed.{listed_state};
ghost use Rattle.die_model.specs.SimState.{state_of};

use die_model::{ListedFaults, SimDie};
use onfi_cmd::{Cycle, Die, DieFailed, DiePlan, DieStop};
use std::alloc::Global;

// The command of Read Status.
const READ_STATUS: [Cycle; 1] = [Cycle::Command(0x70)];

/// A simulated die that fails at listed calls. It is asked for its status before it ages a block, so that a fault of that run is
/// one of the ageing.
#[derive(Drop)]
pub(crate) struct TriedDie {
    pub(crate) inner: ListedFaults<SimDie>,
}

impl Die for TriedDie {
    ghost state = { λ die. listed_state state_of die.inner };

    fn mount(&mut self, alloc: Global, plan: &DiePlan) -> Result<(), DieStop> {
        self.inner.mount(alloc, plan)
    }

    fn load_block(&mut self, sb: u16, erases: u32) -> Result<(), DieFailed> {
        self.inner.load_block(sb, erases)
    }

    fn load_page(&mut self, sb: u16, page: u16, levels: &[i16]) -> Result<(), DieFailed> {
        self.inner.load_page(sb, page, levels)
    }

    fn run(&mut self, cycles: &[Cycle], out: &mut [u8]) -> Result<u8, DieFailed> {
        self.inner.run(cycles, out)
    }

    fn age(&mut self, sb: u16, amount: u16) -> Result<(), DieFailed> {
        let mut status = [0];
        self.inner.run(&READ_STATUS, &mut status)?;
        self.inner.age(sb, amount)
    }

    fn levels(&mut self, sb: u16, page: u16, out: &mut [i16]) -> Result<(), DieFailed> {
        self.inner.levels(sb, page, out)
    }

    fn programmed(&self, sb: u16) -> u16 {
        self.inner.programmed(sb)
    }
}

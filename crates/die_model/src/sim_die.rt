ghost use Rattle.std.specs.Prelude.{◌≡◌};
ghost use Rattle.die_model.specs.Simulated.{unmounted_state};

use crate::mounted::Mounted;
use onfi_cmd::{Cycle, Die, DieFailed, DiePlan, DieStop};
use std::alloc::Global;

/// A die that obeys the rules on cells and weak blocks, and never fails.
#[derive(Drop)]
pub struct SimDie {
    // Nothing before its first mount.
    mounted: Option<Mounted>,
}

impl SimDie {
    ghost use Rattle.die_model.specs.SimState.{state_of};

    /// A die that isn't mounted yet.
    pub fn new() -> SimDie
        ensures { state_of result ≡ unmounted_state }
    {
        SimDie { mounted: None }
    }
}

impl Die for SimDie {
    ghost use Rattle.die_model.specs.SimState.{state_of};

    ghost state = { state_of };

    fn mount(&mut self, alloc: Global, plan: &DiePlan) -> Result<(), DieStop> {
        let Ok(mounted) = Mounted::new(alloc, plan) else {
            return Err(DieStop::Memory);
        };
        self.mounted = Some(mounted);
        Ok(())
    }

    fn load_block(&mut self, sb: u16, erases: u32) -> Result<(), DieFailed> {
        match &mut self.mounted {
            Some(mounted) => mounted.store.set_erases(sb, erases),
            None => unreachable!(),
        }
        Ok(())
    }

    fn load_page(&mut self, sb: u16, page: u16, levels: &[i16]) -> Result<(), DieFailed> {
        let _ = page;
        match &mut self.mounted {
            Some(mounted) => mounted.store.load(sb, levels),
            None => unreachable!(),
        }
        Ok(())
    }

    fn run(&mut self, cycles: &[Cycle], out: &mut [u8]) -> Result<u8, DieFailed> {
        match &mut self.mounted {
            Some(mounted) => Ok(mounted.run(cycles, out)),
            None => unreachable!(),
        }
    }

    fn age(&mut self, sb: u16, amount: u16) -> Result<(), DieFailed> {
        match &mut self.mounted {
            Some(mounted) => mounted.store.age(sb, mounted.plan.law.erased, amount),
            None => unreachable!(),
        }
        Ok(())
    }

    fn levels(&mut self, sb: u16, page: u16, out: &mut [i16]) -> Result<(), DieFailed> {
        match &self.mounted {
            Some(mounted) => mounted.levels(sb, page, out),
            None => unreachable!(),
        }
        Ok(())
    }

    fn programmed(&self, sb: u16) -> u16 {
        match &self.mounted {
            Some(mounted) => mounted.store.programmed(sb),
            None => unreachable!(),
        }
    }
}

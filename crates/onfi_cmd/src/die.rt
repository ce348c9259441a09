ghost use Rattle.std.specs.Prelude.{◌≡◌, ◌^◌, ◌<◌, ◌≤◌, ◌⊎◌, IfOk, IfSome, OnErr, OnOk, length};
ghost use Rattle.onfi_cmd.specs.DieCalls.{CanRun, HasNow, IsBlock, IsLoadCall, IsMountCall, IsMountedAnd, IsNextPage, IsPage, IsPlan, IsWholePage, IsWorkCall, KeepsCells, Runs, WhereTold};
ghost use Rattle.onfi_cmd.specs.DieState.{DieState, levels_of_page, programmed_in, status_failed, status_passed, with_aged, with_erases, with_page};

use crate::{Cycle, DieFailed, DiePlan, DieStop};
use std::alloc::Global;

/// A die of flash memory, driven by command cycles. It may fail in any call but `programmed`, and then counts a fault.
pub trait Die: Drop {
    // What contracts see of the die.
    ghost state: { Self → DieState };

    /// Makes the die blank, and takes all the memory that it will keep.
    fn mount(&mut self, alloc: Global, plan: &DiePlan) -> Result<(), DieStop>
        requires { IsPlan plan.now }
        ensures { IsMountCall (state self.old) (state self.new) plan.now result };

    /// Sets how often a block was erased, as an image tells.
    fn load_block(&mut self, sb: u16, erases: u32) -> Result<(), DieFailed>
        requires { IsBlock (state self.old) sb }
        ensures call { IsLoadCall (state self.old) (state self.new) result }
        ensures ok { OnOk result (WhereTold (state self.old) (λ plan blocks.
            HasNow (state self.old) (state self.new) (with_erases blocks sb erases))) };

    /// Makes the next page of a block a programmed one with these levels, as an image tells.
    fn load_page(&mut self, sb: u16, page: u16, levels: &[i16]) -> Result<(), DieFailed>
        requires place { IsPage (state self.old) sb page }
        requires next { IsNextPage (state self.old).told sb page }
        requires cells { IsWholePage (state self.old) (length levels.now) }
        ensures call { IsLoadCall (state self.old) (state self.new) result }
        ensures ok { OnOk result (WhereTold (state self.old) (λ plan blocks.
            HasNow (state self.old) (state self.new) (with_page blocks sb levels.now))) };

    /// Runs one whole operation, and answers the status byte. `out` takes the word of a read, the four parameters of
    /// Get Features or the byte of Read Status.
    fn run(&mut self, cycles: &[Cycle], out: &mut [u8]) -> Result<u8, DieFailed>
        requires few { length cycles.now < 2 ^ 32 }
        requires can { CanRun (state self.old) cycles.now (length out.old) }
        ensures call { IsWorkCall (state self.old) (state self.new) result }
        ensures out { OnErr result (out.new ≡ out.old) }
        ensures status { IfOk result (λ status. (status ≡ status_passed) ⊎ (status ≡ status_failed)) }
        ensures ok { IfOk result (λ status. Runs (state self.old) (state self.new) cycles.now status out.new) };

    /// Ages the programmed pages of a block.
    fn age(&mut self, sb: u16, amount: u16) -> Result<(), DieFailed>
        requires { IsBlock (state self.old) sb }
        ensures call { IsWorkCall (state self.old) (state self.new) result }
        ensures ok { OnOk result (WhereTold (state self.old) (λ plan blocks.
            HasNow (state self.old) (state self.new) (with_aged plan.law.erased blocks sb amount))) };

    /// Copies the levels of a page.
    fn levels(&mut self, sb: u16, page: u16, out: &mut [i16]) -> Result<(), DieFailed>
        requires place { IsPage (state self.old) sb page }
        requires cells { IsWholePage (state self.old) (length out.old) }
        ensures call { IsLoadCall (state self.old) (state self.new) result }
        ensures out { OnErr result (out.new ≡ out.old) }
        ensures same { OnOk result (WhereTold (state self.old) (λ plan blocks. KeepsCells (state self.old) (state self.new))) }
        ensures ok { OnOk result (WhereTold (state self.old) (λ plan blocks. out.new ≡ levels_of_page plan blocks sb page)) };

    /// How many pages of a block are programmed. They are its first ones.
    fn programmed(&self, sb: u16) -> u16
        requires { IsBlock (state self.now) sb }
        ensures most { IsMountedAnd (state self.now) (λ plan. result ≤ plan.shape.pages) }
        ensures told { IfSome (state self.now).told (λ blocks. result ≡ programmed_in blocks sb) };
}

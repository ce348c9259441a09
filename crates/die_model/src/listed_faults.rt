ghost use Rattle.std.specs.Prelude.{◌≡◌, ◌^◌, ◌<◌, ◌⊎◌, IfOk, IsErr, IsFalse, IsTrue, OnErr, OnOk, length};
ghost use Rattle.onfi_cmd.specs.DieCalls.{CanRun, HasNow, IsBlock, IsLoadCall, IsMountCall, IsNextPage, IsPage, IsPlan, IsWholePage, IsWorkCall, KeepsCells, Runs, WhereTold};
ghost use Rattle.onfi_cmd.specs.DieState.{levels_of_page, status_failed, status_passed, with_aged, with_erases, with_page};
ghost use Rattle.die_model.specs.Listed.{CountsLoad, CountsRun, listed_state};
ghost use Rattle.die_model.specs.ListedCalls.{is_next_listed, no_calls};

use crate::listed_calls::ListedCalls;
use onfi_cmd::{Cycle, Die, DieFailed, DiePlan, DieStop};
use std::alloc::Global;
use std::marker::Model;

/// A die that fails the listed calls, and hands the rest on to the die in it. It counts the calls of `run` apart from
/// those of `mount`, `load_block`, `load_page` and `levels`, both from 1.
#[derive(Drop)]
pub struct ListedFaults<D: Die> {
    inner: D,
    runs: ListedCalls,
    // The calls of `mount`, `load_block`, `load_page` and `levels`.
    loads: ListedCalls,
}

impl<D: Die> Model for ListedFaults<D> {
    ghost use Rattle.die_model.specs.Listed.{Listed};

    ghost Value = { Listed D };

    ghost view = { λ d. record { inner = d.inner; runs = d.runs; loads = d.loads } };
}

impl<D: Die> ListedFaults<D> {
    /// A die that fails these calls of `run`, and these of the other calls that can fail but `age`.
    pub fn new(inner: D, calls: Vec<u64>, loads: Vec<u64>) -> ListedFaults<D>
        ensures { result ≡ record { inner = inner; runs = no_calls calls.items; loads = no_calls loads.items } }
    {
        ListedFaults {
            inner,
            runs: ListedCalls::new(calls),
            loads: ListedCalls::new(loads),
        }
    }

    /// The die that the calls are handed on to.
    pub fn inner(&self) -> &D
        ensures { result.now ≡ self.now.inner }
    {
        &self.inner
    }
}

// Each call says what a die's call says, then how it is counted. A listed one fails and leaves the die in it as it is;
// one that isn't listed is a call of that die.
impl<D: Die> Die for ListedFaults<D> {
    ghost state = { listed_state D.state };

    fn mount(&mut self, alloc: Global, plan: &DiePlan) -> Result<(), DieStop>
        requires { IsPlan plan.now }
        ensures call { IsMountCall (listed_state D.state self.old) (listed_state D.state self.new) plan.now result }
        ensures counted { CountsLoad self.old self.new }
        ensures listed { IsTrue (is_next_listed self.old.loads) →
            (result ≡ Err DieStop.Failed) × (self.new.inner ≡ self.old.inner) }
        ensures others { IsFalse (is_next_listed self.old.loads) →
            IsMountCall (D.state self.old.inner) (D.state self.new.inner) plan.now result }
    {
        if self.loads.fails_next() {
            return Err(DieStop::Failed);
        }
        self.inner.mount(alloc, plan)
    }

    fn load_block(&mut self, sb: u16, erases: u32) -> Result<(), DieFailed>
        requires { IsBlock (listed_state D.state self.old) sb }
        ensures call { IsLoadCall (listed_state D.state self.old) (listed_state D.state self.new) result }
        ensures ok { OnOk result (WhereTold (listed_state D.state self.old) (λ plan blocks.
            HasNow (listed_state D.state self.old) (listed_state D.state self.new) (with_erases blocks sb erases))) }
        ensures counted { CountsLoad self.old self.new }
        ensures listed { IsTrue (is_next_listed self.old.loads) → IsErr result × (self.new.inner ≡ self.old.inner) }
        ensures others { IsFalse (is_next_listed self.old.loads) →
            IsLoadCall (D.state self.old.inner) (D.state self.new.inner) result }
    {
        if self.loads.fails_next() {
            return Err(DieFailed);
        }
        self.inner.load_block(sb, erases)
    }

    fn load_page(&mut self, sb: u16, page: u16, levels: &[i16]) -> Result<(), DieFailed>
        requires place { IsPage (listed_state D.state self.old) sb page }
        requires next { IsNextPage (listed_state D.state self.old).told sb page }
        requires cells { IsWholePage (listed_state D.state self.old) (length levels.now) }
        ensures call { IsLoadCall (listed_state D.state self.old) (listed_state D.state self.new) result }
        ensures ok { OnOk result (WhereTold (listed_state D.state self.old) (λ plan blocks.
            HasNow (listed_state D.state self.old) (listed_state D.state self.new) (with_page blocks sb levels.now))) }
        ensures counted { CountsLoad self.old self.new }
        ensures listed { IsTrue (is_next_listed self.old.loads) → IsErr result × (self.new.inner ≡ self.old.inner) }
        ensures others { IsFalse (is_next_listed self.old.loads) →
            IsLoadCall (D.state self.old.inner) (D.state self.new.inner) result }
    {
        if self.loads.fails_next() {
            return Err(DieFailed);
        }
        self.inner.load_page(sb, page, levels)
    }

    fn run(&mut self, cycles: &[Cycle], out: &mut [u8]) -> Result<u8, DieFailed>
        requires few { length cycles.now < 2 ^ 32 }
        requires can { CanRun (listed_state D.state self.old) cycles.now (length out.old) }
        ensures call { IsWorkCall (listed_state D.state self.old) (listed_state D.state self.new) result }
        ensures out { OnErr result (out.new ≡ out.old) }
        ensures status { IfOk result (λ status. (status ≡ status_passed) ⊎ (status ≡ status_failed)) }
        ensures ok { IfOk result (λ status.
            Runs (listed_state D.state self.old) (listed_state D.state self.new) cycles.now status out.new) }
        ensures counted { CountsRun self.old self.new }
        ensures listed { IsTrue (is_next_listed self.old.runs) → IsErr result × (self.new.inner ≡ self.old.inner) }
        ensures others { IsFalse (is_next_listed self.old.runs) →
            IsWorkCall (D.state self.old.inner) (D.state self.new.inner) result }
    {
        if self.runs.fails_next() {
            return Err(DieFailed);
        }
        self.inner.run(cycles, out)
    }

    fn age(&mut self, sb: u16, amount: u16) -> Result<(), DieFailed>
        requires { IsBlock (listed_state D.state self.old) sb }
        ensures call { IsWorkCall (listed_state D.state self.old) (listed_state D.state self.new) result }
        ensures ok { OnOk result (WhereTold (listed_state D.state self.old) (λ plan blocks.
            HasNow (listed_state D.state self.old) (listed_state D.state self.new)
            (with_aged plan.law.erased blocks sb amount))) }
        ensures counted { self.new ≡ record self.old { inner = self.new.inner } }
        ensures others { IsWorkCall (D.state self.old.inner) (D.state self.new.inner) result }
    {
        self.inner.age(sb, amount)
    }

    fn levels(&mut self, sb: u16, page: u16, out: &mut [i16]) -> Result<(), DieFailed>
        requires place { IsPage (listed_state D.state self.old) sb page }
        requires cells { IsWholePage (listed_state D.state self.old) (length out.old) }
        ensures call { IsLoadCall (listed_state D.state self.old) (listed_state D.state self.new) result }
        ensures out { OnErr result (out.new ≡ out.old) }
        ensures same { OnOk result (WhereTold (listed_state D.state self.old) (λ plan blocks.
            KeepsCells (listed_state D.state self.old) (listed_state D.state self.new))) }
        ensures ok { OnOk result (WhereTold (listed_state D.state self.old) (λ plan blocks.
            out.new ≡ levels_of_page plan blocks sb page)) }
        ensures counted { CountsLoad self.old self.new }
        ensures listed { IsTrue (is_next_listed self.old.loads) → IsErr result × (self.new.inner ≡ self.old.inner) }
        ensures others { IsFalse (is_next_listed self.old.loads) →
            IsLoadCall (D.state self.old.inner) (D.state self.new.inner) result }
    {
        if self.loads.fails_next() {
            return Err(DieFailed);
        }
        self.inner.levels(sb, page, out)
    }

    fn programmed(&self, sb: u16) -> u16 {
        self.inner.programmed(sb)
    }
}

ghost use Rattle.std.specs.Prelude.{◌≡◌, ◌+◌, ◌*◌, ◌-◌, ◌^◌, ◌<◌, ◌⊎◌, IfOk, IsOkAnd, Some, [], drop, false, length, map, pos, take, vec_len};
ghost use Rattle.ssd_geo.specs.BlockCells.{cells_at};
ghost use Rattle.onfi_cmd.specs.Cycles.{bytes_of_op, value_of};
ghost use Rattle.onfi_cmd.specs.DieCalls.{CanDo, HasOutcome, IsInShape, IsPlan};
ghost use Rattle.onfi_cmd.specs.DieState.{blank_blocks, cells_of_page, changes_unless_weak, levels_of_page, outcome_of, programmed_in, programmed_levels, status_failed, status_passed, with_erased, with_page};
ghost use Rattle.onfi_cmd.specs.Reading.{operation_of};
ghost use Rattle.ssd_geo.specs.Cells.{sensed};
ghost use Rattle.die_model.specs.Simulated.{mounted_state, status_byte};

use crate::store::Store;
use crate::words::{data_into, fill_levels, is_weak_at, number_of, sense_erased};
use cell_law::sense_into;
use onfi_cmd::{Cycle, DiePlan, Op, level_params, op_of, row_place};
use ssd_geo::{Items, Memory};
use std::alloc::Global;

/// The status byte, without and with FAIL.
const PASSED: u8 = 0xe0;

const FAILED: u8 = 0xe1;

/// A die from its mount on.
#[derive(Drop)]
pub(crate) struct Mounted {
    pub(crate) plan: DiePlan,
    pub(crate) store: Store,
    pub(crate) read_level: i16,
    // Whether the last operation other than Read Status answered FAIL.
    pub(crate) last_failed: bool,
    // The word of a program, put together from its cycles.
    pub(crate) word: Vec<u8>,
    ghost is_plan: { IsPlan plan },
    ghost pages_fit: { store.pages ≡ plan.shape.pages },
    ghost cells_fit: { store.cells ≡ cells_of_page plan },
    ghost blocks_fit: { length store.blocks ≡ plan.shape.superblocks },
    ghost word_fits: { 8 * vec_len word ≡ cells_of_page plan },
}

impl Mounted {
    /// What a die holds once it is mounted: blank blocks, and all the memory that it will need.
    pub(crate) fn new(alloc: Global, plan: &DiePlan) -> Result<Mounted, Memory>
        requires { IsPlan plan.now }
        ensures { IfOk result (λ m. mounted_state m.plan m.store.blocks m.read_level m.last_failed
            ≡ mounted_state plan.now (blank_blocks plan.now) (pos 0) false) }
    {
        let plan = copied(alloc, plan)?;
        let word_bytes = plan.shape.word_bytes();
        let store = Store::new(
            alloc,
            plan.shape.superblocks,
            plan.shape.pages,
            8 * word_bytes,
        )?;
        let word = blank_word(alloc, word_bytes)?;
        Ok(Mounted {
            plan,
            store,
            read_level: 0,
            last_failed: false,
            word,
        })
    }

    /// What a sense of a page at the read level gives.
    fn sense(&self, sb: u16, page: u16, out: &mut [u8])
        requires place { IsInShape self.now.plan sb page }
        requires room { 8 * length out.old ≡ cells_of_page self.now.plan }
        ensures { out.new ≡ sensed self.now.read_level (levels_of_page self.now.plan self.now.store.blocks sb page) }
    {
        if page < self.store.programmed(sb) {
            sense_into(self.store.page(sb, page), self.read_level, out);
        } else {
            sense_erased(self.plan.law.erased, self.read_level, out);
        }
    }

    /// The levels of a page.
    pub(crate) fn levels(&self, sb: u16, page: u16, out: &mut [i16])
        requires place { IsInShape self.now.plan sb page }
        requires room { length out.old ≡ cells_of_page self.now.plan }
        ensures { out.new ≡ levels_of_page self.now.plan self.now.store.blocks sb page }
    {
        if page < self.store.programmed(sb) {
            out.copy_from_slice(self.store.page(sb, page));
        } else {
            fill_levels(out, self.plan.law.erased);
        }
    }

    /// Programs the data bytes of these cycles into the next page of a block, and tells whether that answers FAIL.
    fn program(&mut self, sb: u16, page: u16, cycles: &[Cycle]) -> bool
        requires place { IsInShape self.old.plan sb page }
        requires next { page ≡ programmed_in self.old.store.blocks sb }
        requires cells { 8 * (length cycles.now - 7) ≡ cells_of_page self.old.plan }
        ensures outcome { HasOutcome
            (changes_unless_weak self.old.plan self.old.store.blocks self.old.read_level sb
            (with_page self.old.store.blocks sb (programmed_levels self.old.plan self.old.store.blocks sb page
            (map value_of (take (length cycles.now - 7) (drop 6 cycles.now))))))
            (mounted_state self.new.plan self.new.store.blocks self.new.read_level result) (status_byte result) [] }
        ensures plan { self.new.plan ≡ self.old.plan }
    {
        let erases = self.store.erases(sb);
        if is_weak_at(&self.plan, sb, erases) {
            return true;
        }
        data_into(cycles, &mut self.word);
        let place = number_of(&self.plan, sb, page);
        self.store.program(&self.plan.law, place, sb, &self.word);
        false
    }

    /// Erases a block, and tells whether that answers FAIL.
    fn erase(&mut self, sb: u16) -> bool
        requires block { sb < self.old.plan.shape.superblocks }
        requires count { (cells_at self.old.store.blocks sb).erases + 1 < 2 ^ 32 }
        ensures outcome { HasOutcome
            (changes_unless_weak self.old.plan self.old.store.blocks self.old.read_level sb
            (with_erased self.old.store.blocks sb))
            (mounted_state self.new.plan self.new.store.blocks self.new.read_level result) (status_byte result) [] }
        ensures plan { self.new.plan ≡ self.old.plan }
    {
        if is_weak_at(&self.plan, sb, self.store.erases(sb)) {
            return true;
        }
        self.store.erase(sb);
        false
    }

    /// Runs one whole operation, and answers its status byte.
    pub(crate) fn run(&mut self, cycles: &[Cycle], out: &mut [u8]) -> u8
        requires few { length cycles.now < 2 ^ 32 }
        requires can { IsOkAnd (operation_of cycles.now) (λ op.
            CanDo self.old.plan (Some self.old.store.blocks) op (bytes_of_op op cycles.now) (length out.old)) }
        ensures outcome { IfOk (operation_of cycles.now) (λ op. HasOutcome
            (outcome_of self.old.plan self.old.store.blocks self.old.read_level (status_byte self.old.last_failed)
            op (bytes_of_op op cycles.now))
            (mounted_state self.new.plan self.new.store.blocks self.new.read_level self.new.last_failed)
            result out.new) }
        ensures status { (result ≡ status_passed) ⊎ (result ≡ status_failed) }
        ensures plan { self.new.plan ≡ self.old.plan }
    {
        let Ok(op) = op_of(cycles) else {
            unreachable!();
        };
        self.last_failed = self.operate(op, cycles, out);
        status_of(self.last_failed)
    }

    /// Does an operation, which these cycles spell, and tells whether its status has FAIL. That of Read Status is the
    /// one before.
    fn operate(&mut self, op: Op, cycles: &[Cycle], out: &mut [u8]) -> bool
        requires { CanDo self.old.plan (Some self.old.store.blocks) op (bytes_of_op op cycles.now) (length out.old) }
        ensures outcome { HasOutcome
            (outcome_of self.old.plan self.old.store.blocks self.old.read_level (status_byte self.old.last_failed)
            op (bytes_of_op op cycles.now))
            (mounted_state self.new.plan self.new.store.blocks self.new.read_level result) (status_byte result) out.new }
        ensures plan { self.new.plan ≡ self.old.plan }
    {
        match op {
            Op::Read { row, .. } => {
                let (sb, page) = row_place(&self.plan.shape, row);
                self.sense(sb, page, out);
                false
            }
            Op::Program { row, .. } => {
                let (sb, page) = row_place(&self.plan.shape, row);
                self.program(sb, page, cycles)
            }
            Op::Erase { row } => {
                let (sb, _) = row_place(&self.plan.shape, row);
                self.erase(sb)
            }
            Op::Status => {
                out[0] = status_of(self.last_failed);
                self.last_failed
            }
            Op::Reset => {
                self.read_level = 0;
                false
            }
            Op::SetFeatures { params, .. } => {
                self.read_level = i16::from_le_bytes([params[0], params[1]]);
                false
            }
            Op::GetFeatures { .. } => {
                out.copy_from_slice(&level_params(self.read_level));
                false
            }
        }
    }
}

fn status_of(failed: bool) -> u8
    ensures byte { result ≡ status_byte failed }
    ensures either { (result ≡ status_passed) ⊎ (result ≡ status_failed) }
{
    if failed { FAILED } else { PASSED }
}

fn copied(alloc: Global, plan: &DiePlan) -> Result<DiePlan, Memory>
    ensures { IfOk result (λ p. p ≡ plan.now) }
{
    match Vec::from_slice(alloc, plan.weak.as_slice()) {
        Ok(weak) => Ok(DiePlan {
            channel: plan.channel,
            die: plan.die,
            shape: plan.shape,
            law: plan.law,
            weak: Items::new(weak),
        }),
        Err(_) => Err(Memory),
    }
}

fn blank_word(alloc: Global, bytes: usize) -> Result<Vec<u8>, Memory>
    ensures { IfOk result (λ v. vec_len v ≡ bytes) }
{
    match vec![in alloc; 0; bytes] {
        Ok(word) => Ok(word),
        Err(_) => Err(Memory),
    }
}

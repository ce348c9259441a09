// Calls of a die one after the other, with what each is to answer.
ghost use Rattle.std.specs.Prelude.{◌≡◌, OnOk, Some};
ghost use Rattle.onfi_cmd.specs.DieCalls.{IsPlan};

use super::calls::{
    WORD, ages, copies_levels, erase_after, level_told, loads_block, loads_page, mounted, program,
    programmed, reset, sense, status_told,
};
use onfi_cmd::{Cycle, Die, DiePlan};
use std::alloc::Global;
use std::test::Fail;

/// A word that is sensed.
#[derive(Clone, Copy)]
pub(crate) enum Bits {
    Zeros,
    Ones,
    /// 1s but for cell 9, which is bit 1 of byte 1.
    OnesButNinth,
    /// The word that is programmed.
    Programmed,
}

/// A call, and what it is to answer.
#[derive(Clone, Copy)]
pub(crate) enum Step {
    /// A mount passes.
    Mount,
    /// The word is programmed into the next page of a block.
    Program {
        sb: u16,
        status: u8,
    },
    /// A block that was erased so often is erased.
    EraseAfter {
        sb: u16,
        erases: u16,
        status: u8,
    },
    /// The first page of a block is sensed at a level.
    Sense {
        sb: u16,
        level: i16,
        bits: Bits,
    },
    /// So many pages of a block are programmed.
    Programmed {
        sb: u16,
        pages: u16,
    },
    /// The next page of a block is loaded with one level, and another for cell 9.
    LoadPage {
        sb: u16,
        level: i16,
        ninth: i16,
        passes: bool,
    },
    /// The levels of the first page of a block are copied. Where that fails, each stays the 9 that was there.
    CopyLevels {
        sb: u16,
        level: i16,
        ninth: i16,
        passes: bool,
    },
    LoadBlock {
        sb: u16,
        passes: bool,
    },
    Age {
        sb: u16,
        amount: u16,
    },
    /// Read Status answers this and tells this byte, or leaves the 7 that was there.
    Status {
        answer: u8,
        byte: u8,
    },
    Reset,
    /// The die tells these parameters of its read level.
    ReadLevel {
        params: [u8; 4],
    },
}

fn bytes_of(bits: Bits) -> [u8; 48] {
    match bits {
        Bits::Zeros => [0; 48],
        Bits::Ones => [0xff; 48],
        Bits::OnesButNinth => {
            let mut word = [0xff; 48];
            word[1] = 0xfd;
            word
        }
        Bits::Programmed => WORD,
    }
}

fn levels_of(level: i16, ninth: i16) -> [i16; 384] {
    let mut levels = [level; 384];
    levels[9] = ninth;
    levels
}

/// Mounts a die and makes the calls: answers which is the first that answers otherwise than it is to.
pub(crate) fn first_other<D: Die>(
    die: &mut D,
    alloc: Global,
    plan: &DiePlan,
    steps: &[Step],
) -> Result<Option<usize>, Fail>
    requires { IsPlan plan.now }
    ensures { OnOk result ((D.state die.new).plan ≡ Some plan.now) }
{
    mounted(die, alloc, plan)?;
    let mut cycles = Vec::new(alloc);
    for (at, step) in steps.iter().enumerate() {
        if !answers(die, alloc, plan, *step, &mut cycles)? {
            return Ok(Some(at));
        }
    }
    Ok(None)
}

// Whether a call of a mounted die answers as it is to.
fn answers<D: Die>(
    die: &mut D,
    alloc: Global,
    plan: &DiePlan,
    step: Step,
    cycles: &mut Vec<Cycle>,
) -> Result<bool, Fail>
    requires plan { IsPlan plan.now }
    requires mounted { (D.state die.old).plan ≡ Some plan.now }
    ensures { OnOk result ((D.state die.new).plan ≡ Some plan.now) }
{
    match step {
        Step::Mount => {
            mounted(die, alloc, plan)?;
            Ok(true)
        }
        Step::Program { sb, status } => Ok(program(die, plan, sb, cycles)? == status),
        Step::EraseAfter { sb, erases, status } => {
            Ok(erase_after(die, plan, sb, erases, cycles)? == status)
        }
        Step::Sense { sb, level, bits } => {
            Ok(sense(die, plan, sb, level, cycles)? == bytes_of(bits))
        }
        Step::Status { answer, byte } => Ok(status_told(die, plan, cycles)? == (answer, byte)),
        Step::Reset => Ok(reset(die, plan, cycles)? == 0xe0),
        Step::ReadLevel { params } => Ok(level_told(die, plan, cycles)? == params),
        _ => answers_at_once(die, plan, step),
    }
}

// The same of a call that takes no cycles.
fn answers_at_once<D: Die>(die: &mut D, plan: &DiePlan, step: Step) -> Result<bool, Fail>
    requires { (D.state die.old).plan ≡ Some plan.now }
    ensures { (D.state die.new).plan ≡ Some plan.now }
{
    match step {
        Step::Programmed { sb, pages } => Ok(programmed(die, plan, sb)? == pages),
        Step::LoadPage {
            sb,
            level,
            ninth,
            passes,
        } => Ok(loads_page(die, plan, sb, &levels_of(level, ninth))? == passes),
        Step::CopyLevels {
            sb,
            level,
            ninth,
            passes,
        } => {
            let mut out = [9; 384];
            let copied = copies_levels(die, plan, sb, &mut out)?;
            Ok(copied == passes && out == levels_of(level, ninth))
        }
        Step::LoadBlock { sb, passes } => Ok(loads_block(die, plan, sb)? == passes),
        Step::Age { sb, amount } => ages(die, plan, sb, amount),
        _ => Ok(false),
    }
}

ghost use Rattle.std.specs.Prelude.{◌≡◌, ◌+◌, ◌-◌, ◌*◌, length, map, replicate, take, drop};
ghost use Rattle.ssd_geo.specs.Cells.{sensed};
ghost use Rattle.onfi_cmd.specs.Cycles.{value_of};
ghost use Rattle.onfi_cmd.specs.DieCalls.{IsInShape, IsPlan};
ghost use Rattle.onfi_cmd.specs.DieState.{is_weak, number_in_drive};
ghost use Rattle.ssd_geo.specs.WeakBlocks.{makes_weak};

use onfi_cmd::{Cycle, DiePlan};
use ssd_geo::Weak;

/// The data bytes of a program's cycles.
pub(crate) fn data_into(cycles: &[Cycle], word: &mut [u8])
    requires { length cycles.now ≡ length word.old + 7 }
    ensures { word.new ≡ map value_of (take (length cycles.now - 7) (drop 6 cycles.now)) }
{
    for (i, byte) in word.iter_mut().enumerate() {
        *byte = value(cycles[i + 6]);
    }
}

fn value(cycle: Cycle) -> u8
    ensures { result ≡ value_of cycle }
{
    match cycle {
        Cycle::Command(byte) | Cycle::Address(byte) | Cycle::Byte(byte) => byte,
    }
}

/// What a sense gives of a page that isn't programmed: all its cells have the erased level.
pub(crate) fn sense_erased(erased: i16, level: i16, out: &mut [u8])
    ensures { out.new ≡ sensed level (replicate (8 * length out.old) erased) }
{
    if erased < level {
        fill(out, 0xff);
    } else {
        fill(out, 0);
    }
}

fn fill(out: &mut [u8], byte: u8)
    ensures { out.new ≡ replicate (length out.old) byte }
{
    out.fill(byte);
}

/// Whether a block answers FAIL at an erase count.
pub(crate) fn is_weak_at(plan: &DiePlan, sb: u16, erases: u32) -> bool
    ensures { result ≡ is_weak plan.now sb erases }
{
    plan.weak
        .as_slice()
        .iter()
        .any(|weak| makes_weak_at(plan, sb, erases, *weak))
}

fn makes_weak_at(plan: &DiePlan, sb: u16, erases: u32, weak: Weak) -> bool
    ensures { result ≡ makes_weak plan.now.channel plan.now.die sb erases weak }
{
    weak.channel == plan.channel && weak.die == plan.die && weak.sb == sb && weak.from <= erases
}

/// The number of a page in the whole drive.
pub(crate) fn number_of(plan: &DiePlan, sb: u16, page: u16) -> u32
    requires plan { IsPlan plan.now }
    requires place { IsInShape plan.now sb page }
    ensures { result ≡ number_in_drive plan.now sb page }
{
    let die = plan.channel as u32 * plan.shape.dies as u32 + plan.die as u32;
    let block = die * plan.shape.superblocks as u32 + sb as u32;
    block * plan.shape.pages as u32 + page as u32
}

/// Gives each cell this level.
pub(crate) fn fill_levels(out: &mut [i16], level: i16)
    ensures { out.new ≡ replicate (length out.old) level }
{
    out.fill(level);
}

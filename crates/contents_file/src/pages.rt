// The programmed pages of one die's block of a superblock.
ghost use Rattle.std.specs.Prelude.{◌≡◌, ◌<◌, [], flat_map, is_some, length, slice_index_or, true, vec_len};
ghost use Rattle.ssd_formats.specs.Fields.{bytes_of_signed};
ghost use Rattle.ssd_formats.specs.ImageContents.{pages_at, pages_bytes};
ghost use Rattle.chan_dies.specs.DiesState.{blocks_in};
ghost use Rattle.onfi_cmd.specs.DieCalls.{IsBlock, IsPage, IsWholePage};
ghost use Rattle.contents_file.specs.DiesCopied.{StaysOrFaults};
ghost use Rattle.contents_file.specs.Saves.{Puts};

use crate::levels::write_levels;
use crate::stop::WriteStop;
use crate::work::PageWork;
use onfi_cmd::{Die, DieFailed};
use ssd_io::{Failed, Sink};

// One page of a die, which has this number in the drive.
fn write_page<O: Sink, D: Die>(
    output: &mut O,
    die: &mut D,
    number: u8,
    sb: u16,
    page: u16,
    work: &mut PageWork,
) -> Result<(), WriteStop>
    requires page { IsPage (D.state die.old) sb page }
    requires programmed { page < length (pages_at sb (blocks_in (D.state die.old))) }
    requires tells { is_some (D.state die.old).told ≡ true }
    requires cells { IsWholePage (D.state die.old) (vec_len work.old.levels) }
    ensures puts { Puts O.written O.faults output.old output.new result
        (flat_map bytes_of_signed (slice_index_or (pages_at sb (blocks_in (D.state die.old))) page [])) }
    ensures die { StaysOrFaults number (D.state die.old) (D.state die.new) result }
    ensures length { vec_len work.new.levels ≡ vec_len work.old.levels }
{
    match die.levels(sb, page, &mut work.levels) {
        Ok(()) => {}
        Err(DieFailed) => return Err(WriteStop::DieFailed { die: number }),
    }
    match write_levels(output, work) {
        Ok(()) => Ok(()),
        Err(Failed) => Err(WriteStop::WriteFault),
    }
}

/// All programmed pages of a block of a die, which has this number in the drive.
pub fn write_pages<O: Sink, D: Die>(
    output: &mut O,
    die: &mut D,
    number: u8,
    sb: u16,
    work: &mut PageWork,
) -> Result<(), WriteStop>
    requires block { IsBlock (D.state die.old) sb }
    requires tells { is_some (D.state die.old).told ≡ true }
    requires cells { IsWholePage (D.state die.old) (vec_len work.old.levels) }
    ensures puts { Puts O.written O.faults output.old output.new result
        (pages_bytes (pages_at sb (blocks_in (D.state die.old)))) }
    ensures die { StaysOrFaults number (D.state die.old) (D.state die.new) result }
    ensures length { vec_len work.new.levels ≡ vec_len work.old.levels }
{
    let count = die.programmed(sb);
    for page in 0..count {
        match write_page(output, die, number, sb, page, work) {
            Ok(()) => {}
            Err(stop) => return Err(stop),
        }
    }
    Ok(())
}

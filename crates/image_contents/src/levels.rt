// The levels of one page.
ghost use Rattle.std.specs.Prelude.{◌≡◌, ◌+◌, ◌*◌, ◌^◌, ◌<◌, ◌≤◌, [], IfSome, IsNone, IsTrue, OnOk, length, take, vec_len};
ghost use Rattle.std.specs.List.{list_all};
ghost use Rattle.ssd_formats.specs.Fields.{level_fields};
ghost use Rattle.ssd_formats.specs.ImageHead.{signed_numbers};
ghost use Rattle.ssd_geo.specs.Limits.{is_level};
ghost use Rattle.image_file.specs.Gives.{Reads};
ghost use Rattle.image_contents.specs.Parts.{IsFirstOutside};

use crate::work::PageWork;
use image_file::{ImageFault, ReadStop, fill};
use ssd_io::{Failed, Source};

// Whether a cell may have a level.
fn may_be_level(level: i16) -> bool
    ensures { result ≡ is_level level }
{
    -16384 <= level && level <= 16383
}

// Takes the first levels that bytes spell, so many, up to the first that no cell may have, and answers its number.
fn levels_into(bytes: &[u8], count: usize, levels: &mut [i16]) -> Option<usize>
    requires bytes { length bytes.now ≡ 2 * length levels.old }
    requires count { count ≤ length levels.old }
    ensures some { IfSome result (IsFirstOutside (signed_numbers (take (2 * count) bytes.now))) }
    ensures none { IsNone result → take count levels.new ≡ signed_numbers (take (2 * count) bytes.now) }
    ensures levels { IsNone result → IsTrue (list_all is_level (signed_numbers (take (2 * count) bytes.now))) }
    ensures length { length levels.new ≡ length levels.old }
{
    for i in 0..count {
        let level = i16::from_le_bytes([bytes[2 * i], bytes[2 * i + 1]]);
        if !may_be_level(level) {
            return Some(i);
        }
        levels[i] = level;
    }
    None
}

/// The levels of one page. One that is whole is tested before the end of the input is a fault.
pub fn read_page<S: Source>(
    input: &mut S,
    place: &mut u64,
    work: &mut PageWork,
) -> Result<(), ReadStop<ImageFault>>
    requires place { place.old < 2 ^ 63 }
    requires few { vec_len work.old.levels ≤ 2 ^ 20 }
    ensures read { Reads (λ _. work.new.levels.items) (S.left input.old) (S.left input.new) (S.faults input.old) (S.faults input.new)
        place.old place.new result (level_fields (vec_len work.old.levels) []) }
    ensures place { OnOk result (place.new ≡ place.old + 2 * vec_len work.old.levels) }
    ensures levels { OnOk result (IsTrue (list_all is_level work.new.levels.items)) }
    ensures length { vec_len work.new.levels ≡ vec_len work.old.levels }
{
    let at = *place;
    let given = match fill(input, &mut work.bytes) {
        Ok(given) => given,
        Err(Failed) => return Err(ReadStop::ReadFault),
    };
    match levels_into(&work.bytes, given / 2, &mut work.levels) {
        None => {}
        Some(number) => {
            return Err(ReadStop::Fault {
                at: at + 2 * number as u64,
                fault: ImageFault::Range,
            });
        }
    }
    if given < work.bytes.len() {
        return Err(ReadStop::Fault {
            at: at + given as u64,
            fault: ImageFault::Short,
        });
    }
    *place = at + given as u64;
    Ok(())
}

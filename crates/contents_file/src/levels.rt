// The levels of one page, spelled and written.
ghost use Rattle.std.specs.Prelude.{◌≡◌, ◌*◌, flat_map, length, vec_len};
ghost use Rattle.ssd_formats.specs.Fields.{bytes_of_signed};
ghost use Rattle.ssd_io.specs.Writes.{Writes};

use crate::put::put;
use crate::work::PageWork;
use ssd_io::{Failed, Sink};

// Spells levels, two bytes each.
fn spell_levels(levels: &[i16], bytes: &mut [u8])
    requires { length bytes.old ≡ 2 * length levels.now }
    ensures { bytes.new ≡ flat_map bytes_of_signed levels.now }
{
    for i in 0..levels.len() {
        let [low, high] = levels[i].to_le_bytes();
        bytes[2 * i] = low;
        bytes[2 * i + 1] = high;
    }
}

/// Writes the levels that stand in the work, in one piece.
pub fn write_levels<O: Sink>(output: &mut O, work: &mut PageWork) -> Result<(), Failed>
    ensures puts { Writes O.written O.faults output.old output.new result (flat_map bytes_of_signed work.old.levels.items) }
    ensures length { vec_len work.new.levels ≡ vec_len work.old.levels }
{
    spell_levels(&work.levels, &mut work.bytes);
    put(output, &work.bytes)
}

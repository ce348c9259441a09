// The page map of a channel.
ghost use Rattle.std.specs.Prelude.{◌≡◌, flat_map};
ghost use Rattle.ssd_formats.specs.ImageContents.{row_bytes};
ghost use Rattle.ssd_geo.specs.declared.row.Row.TheVariants.{Page};
ghost use Rattle.ssd_io.specs.Writes.{Writes};

use crate::put::put;
use ssd_geo::{Row, Slot};
use ssd_io::{Failed, Sink};

// The bytes of a row that names a page.
fn spell_page(slot: Slot, serial: u64) -> [u8; 15]
    ensures { result ≡ row_bytes (Page slot serial) }
{
    let [b0, b1] = slot.sb.to_le_bytes();
    let [i0, i1, i2, i3] = slot.index.to_le_bytes();
    let [s0, s1, s2, s3, s4, s5, s6, s7] = serial.to_le_bytes();
    [1, b0, b1, i0, i1, i2, i3, s0, s1, s2, s3, s4, s5, s6, s7]
}

// Writes a row.
fn write_row<O: Sink>(output: &mut O, row: Row) -> Result<(), Failed>
    ensures { Writes O.written O.faults output.old output.new result (row_bytes row) }
{
    match row {
        Row::Empty => put(output, &[0]),
        Row::Page { slot, serial } => put(output, &spell_page(slot, serial)),
        Row::Lost => put(output, &[2]),
    }
}

/// Writes all rows of a channel.
pub fn write_rows<O: Sink>(output: &mut O, rows: &[Row]) -> Result<(), Failed>
    ensures { Writes O.written O.faults output.old output.new result (flat_map row_bytes rows.now) }
{
    for row in rows {
        write_row(output, *row)?;
    }
    Ok(())
}

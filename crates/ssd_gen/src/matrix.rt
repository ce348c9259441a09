// The base matrix of the generated image.
ghost use Rattle.std.specs.Prelude.{◌≡◌, ◌<◌, OnOk};
ghost use Rattle.ssd_geo.specs.BaseMatrix.{diagonal_entry};
ghost use Rattle.ssd_formats.specs.Fields.{bytes_of_signed};
ghost use Rattle.ssd_formats.specs.GeneratedWork.{first_parity_entry, is_drawn};
ghost use Rattle.ssd_geo.specs.Noise.{noise_word, state_after};
ghost use Rattle.ssd_gen.specs.HeadParts.{matrix_bytes, words_of_matrix};
ghost use Rattle.ssd_gen.specs.RowWords.{drawn_at, entry_with, row_bytes, words_of_row};
ghost use Rattle.ssd_io.specs.Writes.{Writes};

use crate::draw::draw;
use crate::put::put;
use rand_xoshiro::SplitMix64;
use ssd_io::{Failed, Sink};

// The lifting size: shifts are below it.
const LIFTING: u64 = 512;

const ROWS: u32 = 8;

const COLUMNS: u32 = 73;

const MESSAGE_COLUMNS: u32 = 65;

// Whether an entry of the message part is drawn.
fn is_shift(row: u32, column: u32) -> bool
    requires row { row < 8 }
    requires column { column < 73 }
    ensures { result ≡ is_drawn row column }
{
    let place = (row + column) % 8;
    place == 0 || place == 3 || place == 5
}

fn first_parity(row: u32) -> i16
    ensures { result ≡ first_parity_entry row }
{
    match row {
        0 | 7 => 1,
        4 => 0,
        _ => -1,
    }
}

// An entry of a parity column behind the first, counted from 0 at the first.
fn diagonal(row: u32, column: u32) -> i16
    requires { row < 8 }
    ensures { result ≡ diagonal_entry row column }
{
    if row == column || row + 1 == column {
        return 0;
    }
    -1
}

// The entry of a row and a column, for which a word is taken where it is drawn.
fn next_entry(noise: &mut SplitMix64, row: u32, column: u32) -> i16
    requires row { row < 8 }
    requires column { column < 73 }
    ensures entry { result ≡ entry_with (noise_word noise.old 0) row column }
    ensures noise { noise.new ≡ state_after noise.old (drawn_at row column) }
{
    if column > MESSAGE_COLUMNS {
        return diagonal(row, column - MESSAGE_COLUMNS);
    }
    if column == MESSAGE_COLUMNS {
        return first_parity(row);
    }
    if is_shift(row, column) {
        return (draw(noise) % LIFTING) as i16;
    }
    -1
}

fn put_entry<O: Sink>(output: &mut O, entry: i16) -> Result<(), Failed>
    ensures { Writes O.written O.faults output.old output.new result (bytes_of_signed entry) }
{
    put(output, &entry.to_le_bytes())
}

fn put_row<O: Sink>(output: &mut O, noise: &mut SplitMix64, row: u32) -> Result<(), Failed>
    requires { row < 8 }
    ensures row { Writes O.written O.faults output.old output.new result (row_bytes noise.old row) }
    ensures noise { OnOk result (noise.new ≡ state_after noise.old (words_of_row row)) }
{
    for column in 0..COLUMNS {
        let entry = next_entry(noise, row, column);
        put_entry(output, entry)?;
    }
    Ok(())
}

/// Writes the entries, row by row, with the next words.
pub fn put_matrix<O: Sink>(output: &mut O, noise: &mut SplitMix64) -> Result<(), Failed>
    ensures matrix { Writes O.written O.faults output.old output.new result
        (matrix_bytes noise.old) }
    ensures noise { OnOk result (noise.new ≡ state_after noise.old words_of_matrix) }
{
    for row in 0..ROWS {
        put_row(output, noise, row)?;
    }
    Ok(())
}

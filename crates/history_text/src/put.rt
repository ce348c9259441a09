// Pieces of a text on their way through the line.
ghost use Rattle.std.specs.Prelude.{◌≡◌, ◌≤◌, [], ◌∷◌, OnOk, decimal, vec_capacity};
ghost use Rattle.std.specs.Fmt.{signed_decimal};
ghost use Rattle.ssd_formats.specs.EntryText.{dotted};
ghost use Rattle.history_text.specs.Printing.{Prints};

use itoa::Buffer;
use ssd_io::{Failed, Sink, write_all};

/// Writes what the line holds.
pub fn flush<O: Sink>(output: &mut O, line: &mut Vec<u8>) -> Result<(), Failed>
    ensures empty { OnOk result (line.new.items ≡ []) }
    ensures prints { Prints O.written O.faults output.old output.new line.old line.new result [] }
    ensures room { vec_capacity line.new ≡ vec_capacity line.old }
{
    write_all(output, line)?;
    line.clear();
    Ok(())
}

/// Adds a piece to the line, and writes the line first where it has no room for it.
pub fn put<O: Sink>(output: &mut O, line: &mut Vec<u8>, piece: &[u8]) -> Result<(), Failed>
    ensures { Prints O.written O.faults output.old output.new line.old line.new result piece.now }
{
    if line.len() <= line.capacity() && piece.len() <= line.capacity() - line.len() {
        line.extend_from_slice(piece).unwrap();
        return Ok(());
    }
    flush(output, line)?;
    if piece.len() <= line.capacity() {
        line.extend_from_slice(piece).unwrap();
        return Ok(());
    }
    write_past(output, line, piece)
}

// Writes a piece that the line, which is empty, has no room for.
fn write_past<O: Sink>(output: &mut O, line: &mut Vec<u8>, piece: &[u8]) -> Result<(), Failed>
    requires { line.old.items ≡ [] }
    ensures { Prints O.written O.faults output.old output.new line.old line.new result piece.now }
{
    write_all(output, piece)
}

/// Adds a number in decimal digits.
pub fn put_number<O: Sink>(output: &mut O, line: &mut Vec<u8>, n: u64) -> Result<(), Failed>
    ensures { Prints O.written O.faults output.old output.new line.old line.new result (decimal n) }
{
    let mut digits = Buffer::new();
    put(output, line, digits.format(n).as_bytes())
}

/// Adds a number that may be below 0.
pub fn put_signed<O: Sink>(output: &mut O, line: &mut Vec<u8>, n: i16) -> Result<(), Failed>
    ensures { Prints O.written O.faults output.old output.new line.old line.new result
        (signed_decimal n) }
{
    let mut digits = Buffer::new();
    put(output, line, digits.format(n).as_bytes())
}

/// Adds a full stop and a number.
pub fn put_dotted<O: Sink>(output: &mut O, line: &mut Vec<u8>, n: u64) -> Result<(), Failed>
    ensures { Prints O.written O.faults output.old output.new line.old line.new result
        (46 ∷ decimal n) }
{
    put(output, line, b".")?;
    put_number(output, line, n)
}

/// Adds two numbers with a full stop between.
pub fn put_pair<O: Sink>(output: &mut O, line: &mut Vec<u8>, m: u64, n: u64) -> Result<(), Failed>
    ensures { Prints O.written O.faults output.old output.new line.old line.new result
        (dotted (m ∷ n ∷ [])) }
{
    put_number(output, line, m)?;
    put_dotted(output, line, n)
}

/// Adds three numbers with full stops between.
pub fn put_three<O: Sink>(
    output: &mut O,
    line: &mut Vec<u8>,
    l: u64,
    m: u64,
    n: u64,
) -> Result<(), Failed>
    ensures { Prints O.written O.faults output.old output.new line.old line.new result
        (dotted (l ∷ m ∷ n ∷ [])) }
{
    put_number(output, line, l)?;
    put_dotted(output, line, m)?;
    put_dotted(output, line, n)
}

/// Adds a count of the summary.
pub fn put_count<O: Sink>(output: &mut O, line: &mut Vec<u8>, n: u128) -> Result<(), Failed>
    ensures { Prints O.written O.faults output.old output.new line.old line.new result (decimal n) }
{
    let mut digits = Buffer::new();
    put(output, line, digits.format(n).as_bytes())
}

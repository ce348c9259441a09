// Bytes and numbers that are written to a sink.
ghost use Rattle.std.specs.Prelude.{decimal};
ghost use Rattle.ssd_io.specs.Writes.{Writes};

use itoa::Buffer;
use ssd_io::{Failed, Sink, write_all};

/// Appends bytes.
pub fn put<O: Sink>(output: &mut O, bytes: &[u8]) -> Result<(), Failed>
    ensures { Writes O.written O.faults output.old output.new result bytes.now }
{
    write_all(output, bytes)
}

/// Appends a number in decimal digits.
pub fn put_number<O: Sink>(output: &mut O, number: u64) -> Result<(), Failed>
    ensures { Writes O.written O.faults output.old output.new result (decimal number) }
{
    let mut digits = Buffer::new();
    put(output, digits.format(number).as_bytes())
}

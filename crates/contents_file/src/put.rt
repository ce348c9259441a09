ghost use Rattle.ssd_io.specs.Writes.{Writes};

use ssd_io::{Failed, Sink, write_all};

/// Writes bytes.
pub fn put<O: Sink>(output: &mut O, bytes: &[u8]) -> Result<(), Failed>
    ensures { Writes O.written O.faults output.old output.new result bytes.now }
{
    write_all(output, bytes)
}

// A source over one of std's readers.
ghost use Rattle.std.specs.Prelude.{◌≡◌, is_err, if◌then◌else◌};
ghost use Rattle.std.specs.Io.{ReadsAtMost};
ghost use Rattle.std.specs.Io.KnownBytes.{ReadConsumes};
ghost use Rattle.ssd_geo.specs.Faults.{count_after};
ghost use Rattle.ssd_io.specs.FaultCounts.{MatchesCount};

use crate::{Failed, Source};
use std::io::Read;

/// A reader as a source: each call is one `read`, and one that fails counts a fault. It tells the bytes that the
/// reader tells.
#[derive(Drop)]
pub struct ReadSource<R: Read> {
    reader: R,
    faults: u64,
}

impl<R: Read> ReadSource<R> {
    ghost use Rattle.ssd_io.specs.Adapters.{reader_of, faults_read};

    pub fn new(reader: R) -> ReadSource<R>
        ensures reader { reader_of result ≡ reader }
        ensures faults { faults_read result ≡ 0 }
    {
        ReadSource { reader, faults: 0 }
    }
}

impl<R: Read> Source for ReadSource<R> {
    ghost use Rattle.ssd_io.specs.Adapters.{reader_of, faults_read};

    ghost left = { λ s. R.remaining s.reader };

    ghost faults = { λ s. s.faults };

    fn read(&mut self, into: &mut [u8]) -> Result<usize, Failed>
        ensures bound { ReadsAtMost result into.new }
        ensures bytes { ReadConsumes (R.remaining (reader_of self.old))
            (R.remaining (reader_of self.new)) result into.new }
        ensures cause { MatchesCount (faults_read self.old) (faults_read self.new) result }

        // The count rises by one at a failure, and only there.
        ensures counted { let before = faults_read self.old in
            faults_read self.new ≡ (if is_err result then count_after before 1 else before) }
    {
        match self.reader.read(into) {
            Ok(given) => Ok(given),
            Err(_) => {
                self.faults = self.faults.saturating_add(1);
                Err(Failed)
            }
        }
    }
}

#[cfg(test)]
mod tests;

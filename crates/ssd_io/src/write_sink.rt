// A sink over one of std's writers.
ghost use Rattle.std.specs.Prelude.{◌≡◌, ◌<◌, length, is_err, if◌then◌else◌};
ghost use Rattle.std.specs.Io.KnownBytes.{WriteAppends};
ghost use Rattle.ssd_geo.specs.Faults.{count_after};
ghost use Rattle.ssd_io.specs.FaultCounts.{MatchesCount};
ghost use Rattle.ssd_io.specs.Pieces.{TakesSome};

use crate::{Failed, Sink};
use std::io::Write;

/// A writer as a sink: each call is one `write`, and one that fails or takes nothing counts a fault. It tells the
/// bytes that the writer tells. It never flushes: lend it a writer that has to be flushed, and flush that one.
#[derive(Drop)]
pub struct WriteSink<W: Write> {
    writer: W,
    faults: u64,
}

impl<W: Write> WriteSink<W> {
    ghost use Rattle.ssd_io.specs.Adapters.{writer_of, faults_written};

    pub fn new(writer: W) -> WriteSink<W>
        ensures writer { writer_of result ≡ writer }
        ensures faults { faults_written result ≡ 0 }
    {
        WriteSink { writer, faults: 0 }
    }
}

impl<W: Write> Sink for WriteSink<W> {
    ghost use Rattle.ssd_io.specs.Adapters.{writer_of, faults_written};

    ghost written = { λ s. W.contents s.writer };

    ghost faults = { λ s. s.faults };

    fn write(&mut self, piece: &[u8]) -> Result<usize, Failed>
        requires { 0 < length piece.now }
        ensures bound { TakesSome result piece.now }
        ensures bytes { WriteAppends (W.contents (writer_of self.old))
            (W.contents (writer_of self.new)) result piece.now }
        ensures cause { MatchesCount (faults_written self.old) (faults_written self.new) result }

        // The count rises by one at a failure, and only there.
        ensures counted { let before = faults_written self.old in
            faults_written self.new ≡ (if is_err result then count_after before 1 else before) }
    {
        match self.writer.write(piece) {
            Ok(taken) if taken > 0 => Ok(taken),
            _ => {
                self.faults = self.faults.saturating_add(1);
                Err(Failed)
            }
        }
    }
}

#[cfg(test)]
mod tests;

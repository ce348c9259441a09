// What gives bytes.
ghost use Rattle.std.specs.Prelude.{ℕ, ◌<◌, List, length, Option};
ghost use Rattle.std.specs.Io.{ReadsAtMost};
ghost use Rattle.std.specs.Io.KnownBytes.{ReadConsumes};
ghost use Rattle.ssd_io.specs.FaultCounts.{MatchesCount};

use crate::Failed;

/// What gives bytes in order. A source that tells what it has left goes on telling it.
pub trait Source {
    /// The bytes left, where they are told.
    ghost left: { Self → Option (List ℕ) };

    /// The count of faults.
    ghost faults: { Self → ℕ };

    /// Moves some of the bytes left into the front of `into`, and answers how many; 0 comes only at the end.
    /// What stands behind them, and what `into` has after a failure, is left open.
    fn read(&mut self, into: &mut [u8]) -> Result<usize, Failed>
        requires { 0 < length into.old }
        ensures bound { ReadsAtMost result into.new }
        ensures bytes { ReadConsumes (left self.old) (left self.new) result into.new }
        ensures cause { MatchesCount (faults self.old) (faults self.new) result };
}

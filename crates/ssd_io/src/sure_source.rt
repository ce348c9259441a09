// A source in memory that never fails.
ghost use Rattle.std.specs.Prelude.{◌≡◌, ◌++◌, length, take, drop, min, Ok, Some, IfOk, IsOk};
ghost use Rattle.std.specs.Io.{ReadsAtMost};
ghost use Rattle.std.specs.Io.KnownBytes.{ReadConsumes};
ghost use Rattle.ssd_io.specs.FaultCounts.{MatchesCount};

use crate::unread::Unread;
use crate::{Failed, Source};
use std::marker::Model;

/// Bytes in memory, of which each call gives as many as it can. Its count of faults is 0, so no answer that wants a
/// rise of it can come. Contracts see it as the list of the bytes left.
#[derive(Drop)]
pub struct SureSource {
    unread: Unread,
}

impl Model for SureSource {
    ghost use Rattle.std.specs.Prelude.{ℕ, List};

    ghost Value = { List ℕ };

    ghost view = { λ s. s.unread };
}

impl SureSource {
    pub fn new(bytes: Vec<u8>) -> SureSource
        ensures { result ≡ bytes.items }
    {
        SureSource {
            unread: Unread::new(bytes),
        }
    }
}

impl Source for SureSource {
    ghost left = { λ s. Some s };

    ghost faults = { λ _. 0 };

    fn read(&mut self, into: &mut [u8]) -> Result<usize, Failed>
        ensures bound { ReadsAtMost result into.new }
        ensures bytes { ReadConsumes (Some self.old) (Some self.new) result into.new }
        ensures cause { MatchesCount 0 0 result }

        // It never fails, and gives as much as it can.
        ensures count { result ≡ Ok (min (length into.old) (length self.old)) }
        ensures copied { IfOk result (λ n. into.new ≡ take n self.old ++ drop n into.old) }
        ensures after { IfOk result (λ n. self.new ≡ drop n self.old) }
    {
        Ok(self.unread.give(into))
    }
}

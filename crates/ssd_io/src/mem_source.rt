// A source in memory whose listed calls fail.
ghost use Rattle.std.specs.Prelude.{◌≡◌, ◌++◌, length, take, drop, min, is_err, Some, IfOk};
ghost use Rattle.std.specs.Io.{ReadsAtMost};
ghost use Rattle.std.specs.Io.KnownBytes.{ReadConsumes};
ghost use Rattle.ssd_io.specs.FaultCounts.{MatchesCount};
ghost use Rattle.ssd_io.specs.ListedCalls.{no_calls, is_next_listed};
ghost use Rattle.ssd_io.specs.MemSource.{given_count, source_after};

use crate::listed_calls::ListedCalls;
use crate::unread::Unread;
use crate::{Failed, Source};
use std::marker::Model;

/// Bytes in memory. The calls whose number, counted from 1, is listed fail and change nothing but the counts.
/// Contracts see it as `MemSourceView`.
#[derive(Drop)]
pub struct MemSource {
    unread: Unread,
    calls: ListedCalls,
}

impl Model for MemSource {
    ghost use Rattle.ssd_io.specs.MemSource.{MemSourceView};

    ghost Value = { MemSourceView };

    ghost view = { λ s. record { left = s.unread; calls = s.calls } };
}

impl MemSource {
    pub fn new(bytes: Vec<u8>, failing: Vec<u64>) -> MemSource
        ensures bytes { result.left ≡ bytes.items }
        ensures calls { result.calls ≡ no_calls failing.items }
    {
        MemSource {
            unread: Unread::new(bytes),
            calls: ListedCalls::new(failing),
        }
    }
}

impl Source for MemSource {
    ghost left = { λ s. Some s.left };

    ghost faults = { λ s. s.calls.faults };

    fn read(&mut self, into: &mut [u8]) -> Result<usize, Failed>
        ensures bound { ReadsAtMost result into.new }
        ensures bytes { ReadConsumes (Some self.old.left) (Some self.new.left) result into.new }
        ensures cause { MatchesCount self.old.calls.faults self.new.calls.faults result }

        // Which calls fail, and how much the others give.
        ensures fails { is_err result ≡ is_next_listed self.old.calls }
        ensures count { IfOk result (λ n. n ≡ min (length into.old) (length self.old.left)) }
        ensures copied { let n = given_count self.old (length into.old) in
            into.new ≡ take n self.old.left ++ drop n into.old }
        ensures after { self.new ≡ source_after self.old (length into.old) }
    {
        self.calls.count(false)?;
        Ok(self.unread.give(into))
    }
}

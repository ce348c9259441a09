// Calls that are counted, and those of them that fail.
ghost use Rattle.std.specs.Prelude.{◌≡◌, ◌||◌, is_err};
ghost use Rattle.ssd_io.specs.FaultCounts.{MatchesCount};
ghost use Rattle.ssd_io.specs.ListedCalls.{no_calls, is_next_listed, calls_after};

use crate::Failed;
use std::marker::Model;

/// The calls of a source or a sink, of which those with a listed number fail. Contracts see it as `Calls`.
#[derive(Drop)]
pub struct ListedCalls {
    failing: Vec<u64>,
    done: u64,
    faults: u64,
}

impl Model for ListedCalls {
    ghost use Rattle.ssd_io.specs.ListedCalls.{Calls};

    ghost Value = { Calls };

    ghost view = { λ c. record { failing = c.failing.items; done = c.done; faults = c.faults } };
}

impl ListedCalls {
    /// No call yet.
    pub fn new(failing: Vec<u64>) -> ListedCalls
        ensures { result ≡ no_calls failing.items }
    {
        ListedCalls {
            failing,
            done: 0,
            faults: 0,
        }
    }

    /// Counts a call. It fails where its number is listed, and where it is refused anyway.
    pub fn count(&mut self, refused: bool) -> Result<(), Failed>
        ensures fails { is_err result ≡ (refused || is_next_listed self.old) }
        ensures after { self.new ≡ calls_after self.old (refused || is_next_listed self.old) }
        ensures cause { MatchesCount self.old.faults self.new.faults result }
    {
        let failed = refused || self.is_next_listed();
        self.done = self.done.saturating_add(1);
        if failed {
            self.faults = self.faults.saturating_add(1);
            return Err(Failed);
        }
        Ok(())
    }

    fn is_next_listed(&self) -> bool
        ensures { result ≡ is_next_listed self.now }
    {
        let number = u128::from(self.done) + 1;
        self.failing
            .iter()
            .any(|listed| u128::from(*listed) == number)
    }
}

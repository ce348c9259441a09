ghost use Rattle.std.specs.Prelude.{◌≡◌};
ghost use Rattle.die_model.specs.ListedCalls.{calls_after, is_next_listed, no_calls};

use std::marker::Model;

/// The calls of one kind, of which those with a listed number fail.
#[derive(Drop)]
pub(crate) struct ListedCalls {
    failing: Vec<u64>,
    done: u64,
    faults: u64,
}

impl Model for ListedCalls {
    ghost use Rattle.die_model.specs.ListedCalls.{Calls};

    ghost Value = { Calls };

    ghost view = { λ c. record { failing = c.failing.items; done = c.done; faults = c.faults } };
}

impl ListedCalls {
    /// No call yet.
    pub(crate) fn new(failing: Vec<u64>) -> ListedCalls
        ensures { result ≡ no_calls failing.items }
    {
        ListedCalls {
            failing,
            done: 0,
            faults: 0,
        }
    }

    /// Counts a call, and tells whether it is to fail.
    pub(crate) fn fails_next(&mut self) -> bool
        ensures listed { result ≡ is_next_listed self.old }
        ensures after { self.new ≡ calls_after self.old (is_next_listed self.old) }
    {
        let listed = self.is_next_listed();
        self.done = self.done.saturating_add(1);
        if listed {
            self.faults = self.faults.saturating_add(1);
        }
        listed
    }

    fn is_next_listed(&self) -> bool
        ensures { result ≡ is_next_listed self.now }
    {
        let number = u128::from(self.done) + 1;
        self.failing
            .iter()
            .any(|listed| u128::from(*listed) == number)
    }
}

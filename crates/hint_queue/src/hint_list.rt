ghost use Rattle.std.specs.Prelude.{◌≡◌, ◌≤◌, [], ◌∷◌, ◌++◌, length, nat_lt, IfOk, MatchOption, if◌then◌else◌};
ghost use Rattle.ssd_histories.specs.SerialHistory.{most_hints};

use ssd_geo::Memory;
use std::alloc::Global;
use std::collections::VecDeque;
use std::marker::Model;

// How many pages wait at most: a read that asks beyond them goes without its refresh.
const MOST_HINTS: usize = 256;

/// The pages that wait for a refresh, the one that asked first in front. Contracts see it as the list of their
/// numbers.
#[derive(Drop)]
pub struct HintList {
    pages: VecDeque<u32>,
}

impl Model for HintList {
    ghost use Rattle.std.specs.Prelude.{ℕ, ◌≤◌, List};
    ghost use Rattle.std.specs.VecDeque.{deque_len, deque_capacity};
    ghost use Rattle.ssd_histories.specs.SerialHistory.{most_hints};

    ghost Value = { List ℕ };

    ghost view = { λ h. h.pages.items };

    ghost invariant = { λ h. (deque_len h.pages ≤ most_hints) × (most_hints ≤ deque_capacity h.pages) };
}

impl HintList {
    /// No page, with the memory for all that it will ever hold.
    pub fn new(alloc: Global) -> Result<HintList, Memory>
        ensures { IfOk result (λ hints. hints ≡ []) }
    {
        match VecDeque::with_capacity(alloc, MOST_HINTS) {
            Ok(pages) => Ok(HintList { pages }),
            Err(_) => Err(Memory),
        }
    }

    /// Puts a page behind the others. A full queue stays as it is.
    pub fn put(&mut self, page: u32) -> bool
        ensures room { result ≡ nat_lt (length self.old) most_hints }
        ensures after { self.new ≡ (if result then self.old ++ page ∷ [] else self.old) }
        ensures bound { length self.old ≤ most_hints }
    {
        if self.pages.len() >= MOST_HINTS {
            return false;
        }
        self.pages.push_back_reserved(page);
        true
    }

    /// Takes the page in front out.
    pub fn take_front(&mut self) -> Option<u32>
        ensures front { MatchOption result ((self.old ≡ []) × (self.new ≡ []))
            (λ page. self.old ≡ page ∷ self.new) }
        ensures bound { length self.old ≤ most_hints }
    {
        self.pages.pop_front()
    }
}

use atomic_table::{Join, Play, Split, TableRule};
use ssd_geo::Items;

/// A count that a seat found in a word.
pub struct Sight {
    pub word: u32,
    pub count: u64,
}

/// What a seat at the counts knows. No value of it is made.
pub struct Tally {
    /// How many shares there are, one for each pass.
    pub total: u32,
    /// How many of them it has.
    pub share: u32,
    /// The words to which it added one.
    pub told: Items<u32>,
    /// What it found, the latest first.
    pub seen: Items<Sight>,
}

/// The rule of the counts.
pub struct Counting;

impl TableRule<u64, Tally, u32> for Counting {
    ghost use Rattle.hint_queue.specs.Counts.{IsCounted, first_tally};

    ghost holds = { λ passes s. IsCounted s };

    ghost first = { first_tally };
}

/// One is added to a word.
pub struct Tell;

impl Play<u64, Tally> for Tell {
    ghost use Rattle.hint_queue.specs.Counts.{Tells};

    ghost then = { Tells };
}

/// A word is read.
pub struct Look;

impl Play<u64, Tally> for Look {
    ghost use Rattle.hint_queue.specs.Counts.{Looks};

    ghost then = { Looks };
}

/// What one seat knows is compared with what all told.
pub struct Settle;

impl Play<u64, Tally> for Settle {
    ghost use Rattle.hint_queue.specs.Counts.{Settles};

    ghost then = { Settles };
}

/// A seat gives one share away.
pub struct Share;

impl Split<Tally> for Share {
    ghost use Rattle.hint_queue.specs.Counts.{share_left, share_right};

    ghost left = { share_left };

    ghost right = { share_right };
}

/// A seat takes in another.
pub struct Unite;

impl Join<Tally> for Unite {
    ghost use Rattle.hint_queue.specs.Counts.{united, no_tally};

    ghost both = { united };

    ghost spent = { no_tally };
}

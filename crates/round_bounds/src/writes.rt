//! Laws of the rounds of a write. Each is the contract of a function that does nothing.
ghost use Rattle.round_bounds.specs.RoundBounds.{RoundsEndOnce, WritesHaveFewEnds, WritesMakeFewRounds};
ghost use Rattle.round_bounds.specs.RoundBounds.{WritesMakeOneMore, WritesMakeTwoMore};

/// Each round that a write goes on after has just one erase, failed erase or stay.
pub fn rounds_end_once()
    ensures { RoundsEndOnce }
{}

/// A write makes at most as many rounds as superblocks weren't bad before it, and few more than turn bad by it.
pub fn writes_make_few_rounds()
    ensures rounds { WritesMakeFewRounds }
    ensures ends { WritesHaveFewEnds }
    ensures two_more { WritesMakeTwoMore }
    ensures one_more { WritesMakeOneMore }
{}

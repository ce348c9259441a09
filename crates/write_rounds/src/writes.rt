//! Laws of the rounds of a write.
ghost use Rattle.write_rounds.specs.AloneRounds.{AloneWritesMakeFewRounds, AloneWritesMakeTwoMore};

use collector::rounds_alone_are_rounds;

/// A write of a caller that is alone makes at most as many rounds as superblocks weren't bad before it, and at most two more
/// than turn bad by it, also where it was stopped.
pub fn alone_writes_make_few_rounds()
    ensures rounds { AloneWritesMakeFewRounds }
    ensures two_more { AloneWritesMakeTwoMore }
{
    rounds_alone_are_rounds();
}

//! The laws on a worked history. Each example is the contract of a function that does nothing.
ghost use Rattle.round_bounds.specs.RoundExamples.{GarbageIsLawful, GarbageIsSound, GarbageTakesFourRounds, GarbageTurnsTwoBad};

/// A write makes as many rounds as there are superblocks, and two more than turn bad by it.
pub fn four_rounds()
    ensures sound { GarbageIsSound }
    ensures lawful { GarbageIsLawful }
    ensures rounds { GarbageTakesFourRounds }
    ensures bad { GarbageTurnsTwoBad }
{}

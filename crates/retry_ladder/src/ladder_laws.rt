//! Laws of what a ladder keeps. Each is the contract of a function that does nothing.
ghost use Rattle.retry_ladder.specs.Decoder.{CodingsAreOfDecoders};
ghost use Rattle.retry_ladder.specs.Running.{RunsAreLadders, RunsGoOn};
ghost use Rattle.retry_ladder.specs.View.{FedLaddersStand, LaddersTellTheirState};

/// What a ladder keeps of its senses says what the ladder of all of them has come to, and one more
/// sense is one step.
pub fn runs_are_ladders()
    ensures ladders { RunsAreLadders }
    ensures steps { RunsGoOn }
{}

/// A channel's coding is that of its shape, levels and decoder.
pub fn codings_are_of_decoders()
    ensures { CodingsAreOfDecoders }
{}

/// A ladder stands for a look and the senses that it was fed, and tells what the definition says of
/// all of them.
pub fn ladders_stand()
    ensures fed { FedLaddersStand }
    ensures state { LaddersTellTheirState }
{}

// What dies that fit a past hold.
ghost use Rattle.final_dies.specs.FinalDies.{FittingDiesHold};

/// Dies that fit a start after a past hold what it says, and counted the faults of which it tells.
pub fn fitting_dies_hold()
    ensures { FittingDiesHold }
{}

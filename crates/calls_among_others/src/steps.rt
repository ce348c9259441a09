//! Laws of the steps of a call among those of other actors. Each is the contract of a function that does nothing.
ghost use Rattle.calls_among_others.specs.StepsAmong.{PastsAreLate, StepsAmongAreAll, StepsAmongJoin, StepsTogetherAreAmong};

/// Steps that stand together are steps to which no other came.
pub fn steps_together_are_among()
    ensures { StepsTogetherAreAmong }
{}

/// Steps after steps are steps.
pub fn steps_among_join()
    ensures { StepsAmongJoin }
{}

/// They are all that the call did since, and no other call of its actor did anything.
pub fn steps_among_are_all()
    ensures { StepsAmongAreAll }
{}

/// What a past passed, it passes lately of each past to which others came since.
pub fn pasts_are_late()
    ensures { PastsAreLate }
{}

//! Calls that are drains, and calls that just miss.
ghost use Rattle.past_examples.specs.DrainExamples.{IsDrain, IsNoDrain, goes_on_after_fault, stops_at_fault, stops_early, takes_both, takes_newest, takes_one};

/// A drain takes the pages in their order: until none waits, until it has as many as it asked for, or until a die's call fails.
pub fn example_drains()
    ensures takes_both { IsDrain takes_both }
    ensures takes_one { IsDrain takes_one }
    ensures stops_at_fault { IsDrain stops_at_fault }
{}

/// What just misses: a drain that goes on after a fault, one that takes the newest page, and one that stops early.
pub fn example_no_drains()
    ensures goes_on { IsNoDrain goes_on_after_fault }
    ensures newest { IsNoDrain takes_newest }
    ensures early { IsNoDrain stops_early }
{}

// A law of passes. It is the contract of a function that does nothing.
ghost use Rattle.shared_steps.specs.Passing.{ReferencesTellPasses};

/// A pass that was lent for some steps is known again by its reference.
pub fn references_tell_passes()
    ensures { ReferencesTellPasses }
{}

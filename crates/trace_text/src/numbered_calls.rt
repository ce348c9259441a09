// What each accepted trace has.
ghost use Rattle.trace_text.specs.NumberedCalls.{TracesAreNumbered};

/// Each accepted trace has from 1 to 32 actors and at most 2^20 calls; an actor's calls are numbered from 0 in their
/// order, and each argument is within its range. The law is the contract of a function that does nothing.
pub fn traces_are_numbered()
    ensures { TracesAreNumbered }
{}

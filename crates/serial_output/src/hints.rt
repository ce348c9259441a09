//! Laws of the queue of hints of a serial run.
ghost use Rattle.serial_output.specs.ExactHints.{HintsAreTakenInOrder, SerialHintsAreExact, StoppedHintsAreExact};

/// The pages that drains took, and after them those that wait, are the hints that weren't dropped, in order; a hint is
/// dropped just where the queue is full.
pub fn serial_hints_are_exact()
    ensures { SerialHintsAreExact }
{}

/// So the n-th page taken is the n-th page that wasn't dropped.
pub fn hints_are_taken_in_order()
    ensures { HintsAreTakenInOrder }
{}

/// Where a run stopped in a call, the pages taken are those of the calls served and those that the call which was cut took.
pub fn stopped_hints_are_exact()
    ensures { StoppedHintsAreExact }
{}

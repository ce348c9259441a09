//! Laws on the looks of a call in which a run stopped.
ghost use Rattle.serial_output.specs.StoppedLooks.{SerialStopsLeaveLooks, StoppedCallsAreInOrder, StoppedRunsHold};

/// Where a run stopped in a call, whatever its verb, no look is open.
pub fn serial_stops_leave_looks()
    ensures { SerialStopsLeaveLooks }
{}

/// So its calls are in order.
pub fn stopped_calls_are_in_order()
    ensures { StoppedCallsAreInOrder }
{}

/// The statement holds of each run that stopped.
pub fn stopped_runs_hold()
    ensures { StoppedRunsHold }
{}

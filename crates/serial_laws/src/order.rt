//! Laws on the order of calls that are served one after the other.
ghost use Rattle.serial_laws.specs.SerialLooks.{SerialCallsLeaveLooks};
ghost use Rattle.serial_laws.specs.SerialOrder.{SerialCallsAreInOrder, SerialStopsAreInOrder, ServedFrontsAreInOrder};

/// Calls that were all served one after the other are in order.
pub fn serial_calls_are_in_order()
    ensures { SerialCallsAreInOrder }
{}

/// So are calls of which only the first were served, where the others have no reply.
pub fn served_fronts_are_in_order()
    ensures { ServedFrontsAreInOrder }
{}

/// So are the calls of a run that stopped in one of them, where each look of that call has its leave and the calls after it
/// have no reply.
pub fn serial_stops_are_in_order()
    ensures { SerialStopsAreInOrder }
{}

/// After calls that were served one after the other no look is open.
pub fn serial_calls_leave_looks()
    ensures { SerialCallsLeaveLooks }
{}

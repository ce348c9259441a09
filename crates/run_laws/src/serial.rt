//! Laws of runs whose calls are served one after the other, for every verb.
ghost use Rattle.run_laws.specs.SerialRuns.{SerialRunsHold, SerialStopsHold, ServedFrontsStop};
ghost use Rattle.run_laws.specs.SerialRuns.{ServesOneMore, ServingBegins};

/// Before the first call none was served.
pub fn serial_runs_begin()
    ensures { ServingBegins }
{}

/// After the next call one more was.
pub fn serial_runs_go_on()
    ensures { ServesOneMore }
{}

/// The statement holds of a run whose calls were all served so.
pub fn serial_runs_hold()
    ensures { SerialRunsHold }
{}

/// It holds of a run that stopped in a call, each look of which has its leave.
pub fn serial_stops_hold()
    ensures { SerialStopsHold }
{}

/// So it does where the call had no entry yet.
pub fn served_fronts_stop()
    ensures { ServedFrontsStop }
{}

//! Laws of calls that a history's limit stopped. Each is the contract of a function that does nothing.
ghost use Rattle.stopped_calls.specs.StoppedCalls.{AgesStopWithoutRoom, CollectsStopWithoutRoom, ReadsStopWithoutRoom};
ghost use Rattle.stopped_calls.specs.StoppedCalls.{RefreshesStopWithoutRoom, TrimsStopWithoutRoom, WritesStopWithoutRoom};

/// A trim stops where there is no room for a step.
pub fn trims_stop_without_room()
    ensures { TrimsStopWithoutRoom }
{}

/// So does an ageing.
pub fn ages_stop_without_room()
    ensures { AgesStopWithoutRoom }
{}

/// A read stops where there is no room for a look.
pub fn reads_stop_without_room()
    ensures { ReadsStopWithoutRoom }
{}

/// So does a refresh, alone and in a drain.
pub fn refreshes_stop_without_room()
    ensures { RefreshesStopWithoutRoom }
{}

/// A write stops where there is no room for a step, or once it needed room for a look.
pub fn writes_stop_without_room()
    ensures { WritesStopWithoutRoom }
{}

/// A collect stops where there is no room for a step, or once there was a victim for a look.
pub fn collects_stop_without_room()
    ensures { CollectsStopWithoutRoom }
{}

//! Laws of calls that stopped among the entries of others. Each is the contract of a function that does nothing.
ghost use Rattle.race_laws.specs.BegunCalls.{AgesStopBegun, BegunActorsAreSoFar, CollectsStopBegun, DrainsStopBegun};
ghost use Rattle.race_laws.specs.BegunCalls.{ReadsStopBegun, RefreshesStopBegun, TrimsStopBegun, WritesStopBegun};

/// A trim that stopped has begun.
pub fn trims_stop_begun()
    ensures { TrimsStopBegun }
{}

/// So has an ageing.
pub fn ages_stop_begun()
    ensures { AgesStopBegun }
{}

/// So has a read.
pub fn reads_stop_begun()
    ensures { ReadsStopBegun }
{}

/// So has a refresh.
pub fn refreshes_stop_begun()
    ensures { RefreshesStopBegun }
{}

/// So has a write.
pub fn writes_stop_begun()
    ensures { WritesStopBegun }
{}

/// So has a collect.
pub fn collects_stop_begun()
    ensures { CollectsStopBegun }
{}

/// So has a drain.
pub fn drains_stop_begun()
    ensures { DrainsStopBegun }
{}

/// Where an actor stopped in a call that has begun, its calls are what calls in order ask of it.
pub fn begun_actors_are_so_far()
    ensures { BegunActorsAreSoFar }
{}

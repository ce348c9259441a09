//! Laws of refreshes, writes and collects among the entries of others. Each is the contract of a function that does nothing.
ghost use Rattle.calls_among_others.specs.WholeCalls.{CollectsAmongAreCollects, RefreshCallsAmongAreRefreshes};
ghost use Rattle.calls_among_others.specs.WholeCalls.{WritesAmongAreWrites};

/// A call that refreshes a page is whole, also where others came.
pub fn refresh_calls_among_are_refreshes()
    ensures { RefreshCallsAmongAreRefreshes }
{}

/// So is a write with its rounds, each pick of which had a cause lately.
pub fn writes_among_are_writes()
    ensures { WritesAmongAreWrites }
{}

/// So is a collect in a lawful past.
pub fn collects_among_are_collects()
    ensures { CollectsAmongAreCollects }
{}

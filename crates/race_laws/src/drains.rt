//! Laws of drains among the entries of others. Each is the contract of a function that does nothing.
ghost use Rattle.race_laws.specs.Drains.{DrainsAmongAreDrains, DrainsTakeFew, RefreshedPagesAreDrained};

/// A drain is on each channel what calls in order ask of it.
pub fn drains_among_are_drains()
    ensures { DrainsAmongAreDrains }
{}

/// On all channels together it takes no more hints than it asked for, and at most one die's call fails in it.
pub fn drains_take_few()
    ensures { DrainsTakeFew }
{}

/// The pages that it refreshed on a channel are those that its steps there tell.
pub fn refreshed_pages_are_drained()
    ensures { RefreshedPagesAreDrained }
{}

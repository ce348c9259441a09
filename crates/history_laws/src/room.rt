//! Laws of room for the host. Each is the contract of a function that does nothing.
ghost use Rattle.history_laws.specs.BlankChannels.{BlankChannelsTakeWrites, NoneIsRefused};
ghost use Rattle.history_laws.specs.LivePages.{LivePagesFit};
ghost use Rattle.history_laws.specs.NeverFull.{FittingRowsLeaveRoom, NeverFull};

/// A superblock has at most as many live pages as used slots.
pub fn live_pages_fit()
    ensures { LivePagesFit }
{}

/// A channel whose rows fit beside its bad superblocks isn't full, and doesn't become so before a superblock turns bad.
pub fn never_full()
    ensures fits { FittingRowsLeaveRoom }
    ensures stays { NeverFull }
{}

/// A channel that begins blank and without weak blocks refuses no write before a call of a die fails.
pub fn blank_channels_take_writes()
    ensures takes { BlankChannelsTakeWrites }
    ensures refused { NoneIsRefused }
{}

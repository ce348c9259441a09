//! Laws of open looks, from every start. Each is the contract of a function that does nothing.
ghost use Rattle.history_laws.specs.HeldPages.{OpenLooksHoldFast};
ghost use Rattle.history_laws.specs.StaleCopies.{StaleCopiesLeaveRows};

/// From a look to its leave the pages that it may have to read stay as they were: those of its superblock, and with a closed
/// stripe the parity.
pub fn open_looks_hold_fast()
    ensures { OpenLooksHoldFast }
{}

/// A copy whose look stands before a write or a trim of a row doesn't change the row.
pub fn stale_copies_leave_rows()
    ensures { StaleCopiesLeaveRows }
{}

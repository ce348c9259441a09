//! What the laws speak of, on a worked history. Each example is the contract of a function that does nothing.
ghost use Rattle.history_laws.specs.LostReserve.{AfterBadCopy, AfterBadWrite, AfterCopy, BeforeBadWrite, FitsAfterCopy};
ghost use Rattle.history_laws.specs.LostReserve.{SmallChannelIsBlank};

/// A write that fails fills the channel, and a copy that fails takes the reserve: so both laws need that nothing fails.
pub fn lost_reserve()
    ensures first { BeforeBadWrite }
    ensures full { AfterBadWrite }
    ensures copied { AfterCopy }
    ensures fits { FitsAfterCopy }
    ensures worn { AfterBadCopy }
{}

/// There is a channel that takes writes.
pub fn blank_channel()
    ensures { SmallChannelIsBlank }
{}

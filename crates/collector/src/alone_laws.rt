//! Laws of collections. Each is the contract of a function that does nothing but bring in the laws
//! that its proof needs.
ghost use Rattle.collector.specs.Alone.{CollectsAloneAreCollects, RoundsAloneAreRounds, WritesAloneAreWrites};
ghost use Rattle.collector.specs.AloneReplies.{CollectsAloneAreReplied, RoundsAloneAreReplied, WritesAloneAreReplied};
ghost use Rattle.collector.specs.Rooms.{CollectsAloneFindRoom, WritesAloneFindRoom};
ghost use Rattle.collector.specs.Stops.{CollectsAloneBreakOff, CollectsAloneStopAsCuts, WritesAloneBreakOff, WritesAloneStopAsCuts};

use chan_calls::copies_alone_are_copies;

/// The rounds of a caller that is alone are those of calls that are served one after the other.
pub fn rounds_alone_are_rounds()
    ensures { RoundsAloneAreRounds }
{
    copies_alone_are_copies();
}

/// The writes of a caller that is alone are those of calls that are served one after the other.
pub fn writes_alone_are_writes()
    ensures { WritesAloneAreWrites }
{
    copies_alone_are_copies();
}

/// The collects of a caller that is alone are those of calls that are served one after the other.
pub fn collects_alone_are_collects()
    ensures { CollectsAloneAreCollects }
{
    copies_alone_are_copies();
}

/// The reply of a write of a caller that is alone is the one that its entries decide.
pub fn writes_alone_are_replied()
    ensures { WritesAloneAreReplied }
{}

/// So is that of a round.
pub fn rounds_alone_are_replied()
    ensures { RoundsAloneAreReplied }
{}

/// So is that of a collect.
pub fn collects_alone_are_replied()
    ensures { CollectsAloneAreReplied }
{}

/// A write of a caller that is alone was cut where the history has no room for its next entry.
pub fn writes_alone_stop_as_cuts()
    ensures { WritesAloneStopAsCuts }
{
    copies_alone_are_copies();
}

/// So was such a collect.
pub fn collects_alone_stop_as_cuts()
    ensures { CollectsAloneStopAsCuts }
{
    copies_alone_are_copies();
}

/// A write of a caller that is alone was broken off where memory was refused.
pub fn writes_alone_break_off()
    ensures { WritesAloneBreakOff }
{
    copies_alone_are_copies();
}

/// So was such a collect.
pub fn collects_alone_break_off()
    ensures { CollectsAloneBreakOff }
{
    copies_alone_are_copies();
}

/// Each entry of a write of a caller that is alone found room, where each before it did.
pub fn writes_alone_find_room()
    ensures { WritesAloneFindRoom }
{
    copies_alone_are_copies();
}

/// So did each entry of such a collect.
pub fn collects_alone_find_room()
    ensures { CollectsAloneFindRoom }
{
    copies_alone_are_copies();
}

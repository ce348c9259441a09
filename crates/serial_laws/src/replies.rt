//! Laws on the replies of calls that are served one after the other.
ghost use Rattle.serial_laws.specs.SerialReplies.{SerialCallsHaveOneReply, SerialRepliesStay, SerialStopsHaveOneReply};

/// The entries of each call decide its reply; for a drain they do once the order is known in which it took its pages.
pub fn serial_calls_have_one_reply()
    ensures { SerialCallsHaveOneReply }
{}

/// So do those of each call before one in which a run stopped.
pub fn serial_stops_have_one_reply()
    ensures { SerialStopsHaveOneReply }
{}

/// A reply that the entries of a call decide stays so when the next call is served.
pub fn serial_replies_stay()
    ensures { SerialRepliesStay }
{}

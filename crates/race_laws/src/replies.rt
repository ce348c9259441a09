//! Laws of the replies of whole races. Each is the contract of a function that does nothing.
ghost use Rattle.race_laws.specs.RaceReplies.{RacesHaveReplies, WholeRacesAreInOrder};

/// The own entries of each answered call of a race decide its reply.
pub fn races_have_replies()
    ensures { RacesHaveReplies }
{}

/// A race whose drains answer no more pages than were asked for is in order, with its replies.
pub fn whole_races_are_in_order()
    ensures { WholeRacesAreInOrder }
{}

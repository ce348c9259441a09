//! Laws of the calls of one actor, each made among those of others. Each is the contract of a function that does nothing.
ghost use Rattle.calls_among_others.specs.ActorsCalls.{CallsAmongAreAsked, EachActorIsKnown, NoActorFalls};

/// The calls of an actor on a channel are what calls in order ask of it there.
pub fn calls_among_are_asked()
    ensures { CallsAmongAreAsked }
{}

/// Where the call numbers of no actor fall, none fall.
pub fn no_actor_falls()
    ensures { NoActorFalls }
{}

/// Where each actor's entries are of known calls, all are.
pub fn each_actor_is_known()
    ensures { EachActorIsKnown }
{}

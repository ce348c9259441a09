//! Collections of one channel: a round picks a victim, copies its live pages out and erases it, a
//! collect makes rounds until one is decided, and a write makes rounds until there is room. It knows
//! no trace, no hint and no other channel.
#![tactic(auto)]

mod alone_laws;
mod collecting;
mod emptying;
mod replies;
mod rounds;
mod writing;

pub use alone_laws::{
    collects_alone_are_collects, collects_alone_are_replied, collects_alone_break_off,
    collects_alone_find_room, collects_alone_stop_as_cuts, rounds_alone_are_replied,
    rounds_alone_are_rounds, writes_alone_are_replied, writes_alone_are_writes,
    writes_alone_break_off, writes_alone_find_room, writes_alone_stop_as_cuts,
};
pub use collecting::collect;
pub use replies::{CollectReply, RoundReply, WriteReply};
pub use rounds::round;
pub use writing::{write, write_or_round};

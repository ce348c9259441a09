//! A channel: its tables, its dies and its policy. Each step decides by the tables, has the dies do it, and records what they
//! did: it adds one lawful entry or none. It knows neither the host's pages nor any decoder, and encodes no word.
#![tactic(auto)]

mod answers;
mod channel;
mod kept;
mod parts;

pub use answers::{AgeAnswer, EraseAnswer, MoveAnswer, PickAnswer, SenseAnswer, WriteAnswer};
pub use chan_tables::{CondemnAnswer, LiveAnswer, LookAnswer, Note};
pub use channel::Channel;
pub use parts::BaseParts;

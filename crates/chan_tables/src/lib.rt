//! The tables of a channel: its page map, its superblocks, its open looks, and the history of its steps. Each step adds one
//! entry or none. It knows no die and no word, and doesn't say which entries are lawful.
#![tactic(auto)]

mod answers;
mod history;
mod rooms;
mod tables;

pub use answers::{CondemnAnswer, LiveAnswer, LookAnswer, Note};
pub use rooms::{EraseRoom, MoveRoom, PickRoom, WriteRoom};
pub use tables::Tables;

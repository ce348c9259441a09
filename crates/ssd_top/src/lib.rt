//! The top call: it takes the words of the command line, a source and a sink, serves what the
//! source holds and answers how that ended. It knows no operating system.
#![tactic(auto)]

mod ended;
mod format;
mod generate;
mod lists;
mod loading;
mod printed;
mod saving;
mod serve;
mod served;
mod serving;
mod status;
mod top;
mod worker;

pub use command_words::{is_race, policy_of};
pub use ended::Ended;
pub use status::{Status, status_text};
pub use top::run;

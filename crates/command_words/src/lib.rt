//! The words of the command line: which command they are, and with which settings. It takes no memory, and knows nothing of how
//! a command is served.
#![tactic(auto)]

mod command;
mod numbers;
mod options;
mod read;
mod settings;

pub use command::{Command, Settings};
pub use read::{is_race, policy_of, read_command};

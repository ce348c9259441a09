//! The calls of a trace, read from a source line by line. It knows neither the image before them nor how a call is served.
#![tactic(auto)]

mod call_list;
mod content;
mod fault;
mod line_reader;
mod lines;
mod numbered_calls;
mod numbers;
mod read;
mod verbs;
mod window;
mod words;

pub use fault::TraceFault;
pub use numbered_calls::traces_are_numbered;
pub use read::read_trace;

#[cfg(test)]
mod tests;

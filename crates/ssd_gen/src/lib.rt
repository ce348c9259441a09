//! The large input that a number stands for: the head of a blank image, and a trace. It knows no drive and reads
//! nothing.
#![tactic(auto)]

mod draw;
mod generated;
mod head;
mod line;
mod line_word;
mod matrix;
mod put;
#[cfg(test)]
mod tests;
mod trace;

pub use generated::gen_into;

//! The encoder of a quasi-cyclic code with a dual diagonal. It keeps nothing from word to word.
#![tactic(auto)]

mod encode;
mod laws;
mod message;
mod parity;

pub use encode::encode_into;
pub use laws::word_laws;

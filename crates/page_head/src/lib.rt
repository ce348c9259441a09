//! The head that tells a page from any other, and the places of its codewords: the head is put before a page's data bytes,
//! and taken off a word that was read; a codeword is taken out of a page's word, and put into it. It knows no code and no
//! cells.
#![tactic(auto)]

mod parts;
mod payload;

pub use parts::{part_into, put_part};
pub use payload::{payload_into, payload_of};

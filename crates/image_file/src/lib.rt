//! The head of an image, read from a source and written to a sink, and the fields that an image is made of. It knows no die,
//! no contents of a channel and no command.
#![tactic(auto)]

mod blocks;
mod bytes;
mod field;
mod fixed;
mod head;
mod lists;
mod matrix;
mod sizes;
mod stop;
mod written_head;
mod written_lists;

pub use bytes::fill;
pub use field::{read_bytes, read_u8, read_u16, read_u32, read_u64, u32_within};
pub use head::read_head;
pub use stop::{ImageFault, ReadStop};
pub use written_head::write_head;

#[cfg(test)]
mod tests;

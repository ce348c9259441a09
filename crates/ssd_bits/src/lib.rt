//! Bits of byte lists: one bit, the number of ones, sums, and sums with a block that is turned. It knows nothing of
//! codes, nor of what the bits mean.
#![tactic(auto)]

mod ones;
mod place;
mod rotate;
mod run;
mod word;
mod xor;

pub use ones::{get, weight};
pub use rotate::rotate_xor_into;
pub use xor::xor_into;

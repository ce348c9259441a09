//! The numbers that a decoder takes from the senses of a page: from one sense, and from five at neighbouring levels.
//! It knows no code, no cells and no levels.
#![tactic(auto)]

mod hard;
mod soft;
mod zeros;

pub use hard::hard_values;
pub use soft::soft_values;

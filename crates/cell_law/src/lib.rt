//! The levels of the cells of a page: fresh ones after a program, their ageing, and what a sense reads of them. It
//! keeps no cell and knows no block, page or die.
#![tactic(auto)]

mod age;
mod fresh;
mod sense;
#[cfg(test)]
mod tests;

pub use age::age_cell;
pub use fresh::fresh_into;
pub use sense::sense_into;

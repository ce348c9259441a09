//! A lock that hands out turns, one after the other in the order in which they were asked for. Behind it lies a value
//! that stands for a list of entries. The lock knows nothing of what an entry says.
#![tactic(auto)]

mod law;
mod pass;
mod standing;
mod steps;
mod turn;
mod turns;
mod view;

pub use pass::Pass;
pub use standing::Standing;
pub use turn::Turn;
pub use turns::Turns;

#[cfg(test)]
mod tests;

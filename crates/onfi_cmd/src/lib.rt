//! The command cycles of a die and the operations that they spell, after a profile of ONFI, and the trait of all
//! dies. It keeps no cell and knows no channel.
#![tactic(auto)]

mod address;
mod cycle;
mod cycle_fault;
mod die;
mod examples;
mod laws;
mod op;
mod plan;
mod reading;
mod stop;
#[cfg(test)]
mod tests;
mod writing;

pub use address::{level_params, row_address, row_place};
pub use cycle::Cycle;
pub use cycle_fault::CycleFault;
pub use die::Die;
pub use examples::{reading_a_page, setting_a_read_level};
pub use laws::operations_match_cycles;
pub use op::Op;
pub use plan::DiePlan;
pub use reading::op_of;
pub use stop::{DieFailed, DieStop};
pub use writing::cycles_into;

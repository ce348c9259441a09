//! The min-sum rule of one check row, and the serial work of one layer. It knows no code, no iteration and no word.
#![tactic(auto)]

mod layer;
mod row;

pub use layer::layer_serial;
pub use row::row_update;

//! The min-sum work of one layer, many check rows at a time on vectors. It knows no code, no iteration and no word.
#![tactic(auto)]

mod lanes;
mod layer;
mod runs;
mod tile;
mod work;

pub use layer::layer_lanes;
pub use work::LaneWork;

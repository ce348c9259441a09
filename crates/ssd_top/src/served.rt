// What came of an input that was served.
use crate::printed::Printed;
use chan_state::BaseParts;

// What is to be printed of a run, and the changed parts of the base of each channel at its end.
#[derive(Drop)]
pub struct Served {
    pub printed: Printed,
    pub parts: Vec<BaseParts>,
}

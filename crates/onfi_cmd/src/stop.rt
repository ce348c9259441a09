/// A die's call failed, and changed nothing but the count of its faults.
#[derive(Clone, Copy, Debug, PartialEq, Eq)]
pub struct DieFailed;

/// Why a die couldn't be mounted. It is as it was before.
#[derive(Clone, Copy, Debug, PartialEq, Eq)]
pub enum DieStop {
    /// The die failed.
    Failed,
    /// Memory was wanted and refused.
    Memory,
}

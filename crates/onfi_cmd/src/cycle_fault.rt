use thiserror::Error;

/// What is wrong with a list of cycles: the first cycle that breaks the profile.
#[derive(Clone, Copy, Debug, PartialEq, Eq, Error)]
pub enum CycleFault {
    /// The cycles end before the operation does, after so many.
    #[error("the cycles end too early, after {at}")]
    Short { at: u32 },
    /// The first cycle is a command that begins no operation.
    #[error("the command {byte} begins no operation")]
    Unknown { byte: u8 },
    /// This cycle can't stand at its place, counted from 0.
    #[error("cycle {at} can't stand at its place")]
    Wrong { at: u32 },
    /// This cycle comes after a whole operation.
    #[error("cycle {at} comes after a whole operation")]
    Extra { at: u32 },
}

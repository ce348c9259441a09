/// A call of the trace: its actor, and its number among that actor's calls, counted from 0.
#[derive(Clone, Copy, Debug, PartialEq, Eq)]
pub struct Tag {
    /// The actor.
    pub actor: u8,
    /// The number of the call.
    pub call: u32,
}

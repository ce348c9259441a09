/// Memory was wanted and refused. What was asked for is as it was before.
#[derive(Clone, Copy, Debug, PartialEq, Eq)]
pub struct Memory;

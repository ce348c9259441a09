/// What the decoder answers.
#[derive(Clone, Copy, Debug, PartialEq, Eq)]
pub enum Outcome {
    /// The hard decision was a codeword after this many iterations, and after no fewer.
    Found { iterations: u8 },
    /// The hard decision was no codeword up to the iteration limit.
    NotFound,
}

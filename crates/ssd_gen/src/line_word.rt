// The words of a line.

/// One word of a line.
#[derive(Clone, Copy)]
pub enum LineWord {
    /// A word of the texts.
    Name(&'static [u8]),
    Number(u64),
    /// Generated data by their number.
    Data(u32),
}

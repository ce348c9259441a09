/// Why the contents of a channel were not written.
#[derive(Clone, Copy, Debug, PartialEq, Eq)]
pub enum WriteStop {
    /// The sink failed, and its count of faults rose.
    WriteFault,

    /// A die failed, and its count of loads rose. Dies are numbered through all channels.
    DieFailed { die: u8 },
}

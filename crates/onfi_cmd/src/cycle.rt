/// One cycle on a die's bus.
#[derive(Clone, Copy, Debug, PartialEq, Eq)]
pub enum Cycle {
    /// A command byte.
    Command(u8),
    /// One byte of an address.
    Address(u8),
    /// A data byte, or one parameter of a feature.
    Byte(u8),
}

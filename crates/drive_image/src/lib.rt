//! The whole image of a drive with contents, written to a sink: its head, and then the contents of each channel, from its base
//! and its dies among those of the drive. It keeps no image in memory, and knows no command cycle and no history.
#![tactic(auto)]

mod channels;
mod drive;
mod laws;

pub use drive::write_drive;
pub use laws::mounted_channels_tell;

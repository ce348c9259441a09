// How a top call ended.
use crate::Status;
use onfi_cmd::Die;

/// How a top call ended, and what it hands back.
#[derive(Drop)]
pub struct Ended<D: Die> {
    /// How it ended.
    pub status: Status,
    /// The dies that were handed in, in their order. Where memory was refused some may be lost.
    pub dies: Vec<D>,
}

//! The laws of a channel's end, and of a run's. Each is the contract of a function that does nothing.
ghost use Rattle.channel_ends.specs.ChannelEnds.{EndedChannelsAreSaved, EndedChannelsStartAgain};
ghost use Rattle.channel_ends.specs.EndedRuns.{EndedChannelsHoldTheirImage, EndedRunsAreReadAgain, EndedRunsHoldTheirImages};

/// A channel that stands for its start has a start at its end, which is read again once it is saved.
pub fn ended_channels_start_again()
    ensures starts { EndedChannelsStartAgain }
    ensures saved { EndedChannelsAreSaved }
{}

/// What channels and their dies have at the end is what their pasts say that they are saved as.
pub fn ended_channels_hold_their_images()
    ensures channel { EndedChannelsHoldTheirImage }
    ensures run { EndedRunsHoldTheirImages }
{}

/// The image that a run is saved as is read again.
pub fn ended_runs_are_read_again()
    ensures { EndedRunsAreReadAgain }
{}

//! Laws of what an image told, and of what is saved after it. Each is the contract of a function that does nothing.
ghost use Rattle.savable_contents.specs.SavableContents.{CallsGiveSmallTags, ContentsAreSavable, RunsOfContentsAreSavable, SavedRunsAreReadAgain};

/// The starts of a run that began with what an image tells could be saved.
pub fn begun_runs_are_savable()
    ensures contents { ContentsAreSavable }
    ensures runs { RunsOfContentsAreSavable }
{}

/// The image that the drive of such a run is saved as is read again, once its channels have ended.
pub fn saved_runs_are_read_again()
    ensures tags { CallsGiveSmallTags }
    ensures read { SavedRunsAreReadAgain }
{}

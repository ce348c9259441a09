//! Laws of contents. Each is the contract of a function that does nothing.
ghost use Rattle.contents_start.specs.ContentsStart.{BlankContentsAreSaved, ContentsMakeStarts, LoadedDiesMakeStarts};

/// What a blank image tells of a channel has a spelling, as what a full image tells.
pub fn blank_contents_are_saved()
    ensures { BlankContentsAreSaved }
{}

/// A channel may begin with contents that have a spelling, and with dies into which they were loaded.
pub fn contents_make_starts()
    ensures saved { ContentsMakeStarts }
    ensures loaded { LoadedDiesMakeStarts }
{}

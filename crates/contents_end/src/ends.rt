//! Laws of contents that are saved. Each is the contract of a function that does nothing.
ghost use Rattle.contents_end.specs.ContentsEnd.{SavedStartsHaveTheirBases, StartsAreSaved};

/// What a channel begins with, or has at its end, is read again once it is saved, and its base is that of what was saved.
pub fn starts_are_saved()
    ensures saved { StartsAreSaved }
    ensures bases { SavedStartsHaveTheirBases }
{}

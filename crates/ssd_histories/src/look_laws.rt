//! Laws of open looks in lawful histories. Each is the contract of a function that does nothing.
ghost use Rattle.ssd_histories.specs.LookLaws.{CopiesAreFresh, ErasesSpareLooks, LawfulRowsNameUsed, OpenLooksStand, RewrittenRowsDiffer};
ghost use Rattle.ssd_histories.specs.PinnedPages.{PinnedPagesStay};

/// Each row that names a slot names one that is used, from a start at which that holds.
pub fn rows_name_used()
    ensures { LawfulRowsNameUsed }
{}

/// The slot of an open look stays used, so it isn't the next slot: no new page comes to stand in it.
pub fn open_looks_stand()
    ensures { OpenLooksStand }
{}

/// No superblock is erased in which a look stands.
pub fn erases_spare_looks()
    ensures { ErasesSpareLooks }
{}

/// A row that was written or trimmed since a look doesn't name the look's slot while the look is open, also where it
/// was written again and whatever copies were made: so no copy whose look stands before the write or the trim changes
/// the row.
pub fn copies_are_fresh()
    ensures rows { RewrittenRowsDiffer }
    ensures copies { CopiesAreFresh }
{}

/// From a look to its leave, every page of its superblock that was programmed at the look keeps its word, and no closed
/// stripe of it opens, since no fewer slots are used.
pub fn pinned_pages_stay()
    ensures { PinnedPagesStay }
{}

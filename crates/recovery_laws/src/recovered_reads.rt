//! Laws of looks whose pages were recovered. Each is the contract of a function that does nothing.
ghost use Rattle.recovery_laws.specs.RecoveredReads.{EmptyRowsWereTrimmed, RecoveredPagesStay};
ghost use Rattle.recovery_laws.specs.RecoveredReads.{RecoveredReadsArePlain, TrimmedRowsHaveNoPage};

/// Where the page of a look and all copies by which it came to its slot were recovered, the word that the look's ladder
/// found is that of the row's latest write, and has its data.
pub fn recovered_reads_are_plain()
    ensures { RecoveredReadsArePlain }
{}

/// Whether a look's page is recovered is settled when the look may be left: what comes later doesn't change it.
pub fn recovered_pages_stay()
    ensures { RecoveredPagesStay }
{}

/// A row is empty just where it was trimmed since its latest write, or never held a page: so no look of such a row found one.
pub fn empty_rows_were_trimmed()
    ensures rows { EmptyRowsWereTrimmed }
    ensures looks { TrimmedRowsHaveNoPage }
{}

//! Laws of the pages that a channel holds.
ghost use Rattle.run_laws.specs.FirstSenses.{LostRowsWereCondemned, PagesAreReadAtOnce};

/// Where no block was aged, a page that a row names is recovered from the first sense of a look, and has the data of the
/// row's latest write: in every lawful past, whatever was copied, erased or failed.
pub fn pages_are_read_at_once()
    ensures { PagesAreReadAtOnce }
{}

/// A row is lost only where it began so or its page was condemned.
pub fn lost_rows_were_condemned()
    ensures { LostRowsWereCondemned }
{}

//! Laws of pasts and of lawful histories. Each is the contract of a function that does nothing.
ghost use Rattle.ssd_histories.specs.HistoryLaws.{HistoriesReverse, LawfulBeforeLast, RowsAfterEntry};

/// A history is its past read backwards, so a rule over pasts can be read over histories.
pub fn histories_reverse()
    ensures { HistoriesReverse }
{}

/// Whatever was lawful was lawful before its last entries.
pub fn lawful_before_last()
    ensures { LawfulBeforeLast }
{}

/// One more entry changes at most one row of the page map.
pub fn rows_after_entry()
    ensures { RowsAfterEntry }
{}

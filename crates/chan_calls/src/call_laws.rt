//! Laws of whole calls. Each is the contract of a function that does nothing.
ghost use Rattle.chan_calls.specs.Calls.{ReadsAloneAreReads};
ghost use Rattle.chan_calls.specs.Copied.{CopiesAloneAreCopies, CopiesAloneAreRefreshes};

/// What a caller that is alone reads is read by steps that stand together.
pub fn reads_alone_are_reads()
    ensures { ReadsAloneAreReads }
{}

/// What a caller that is alone copies, and condemns where it can't be recovered, is a copy.
pub fn copies_alone_are_copies()
    ensures { CopiesAloneAreCopies }
{}

/// What a caller that is alone copies, and leaves where it can't be recovered, is a refresh.
pub fn copies_alone_are_refreshes()
    ensures { CopiesAloneAreRefreshes }
{}

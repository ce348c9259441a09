//! Laws of the replies of reads. Each is the contract of a function that does nothing.
ghost use Rattle.recovery_laws.specs.ReadReplies.{CallsGiveLastWrites, EmptyReadsHeldNothing};
ghost use Rattle.recovery_laws.specs.ReadReplies.{ReadsGiveLastWrites, TracedRunsAreWritten};

/// The reply of a read gives the data of the row's latest write, where the page that the read looked at and all its
/// copies were recovered: on one channel by the read's own entries, and in a run over all its calls and channels.
pub fn reads_give_last_writes()
    ensures reads { ReadsGiveLastWrites }
    ensures calls { CallsGiveLastWrites }
{}

/// A read answers that its row is empty just where by its writes and trims the row held nothing at the read's look.
pub fn empty_reads_held_nothing()
    ensures { EmptyReadsHeldNothing }
{}

/// Only the calls of writes write: so where the contents give each write of a trace its data, each entry that writes has data.
pub fn traced_runs_are_written()
    ensures { TracedRunsAreWritten }
{}

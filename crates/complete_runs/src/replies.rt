//! Laws of the replies of a run. Each is the contract of a function that does nothing.
ghost use Rattle.complete_runs.specs.CompleteRuns.{OrderedRunsAreComplete, RunsAreComplete};
ghost use Rattle.complete_runs.specs.PlainAnswers.{BlankRunsAnswerReads, FirstSensesAnswerReads, UnagedCallsAgeNone};
ghost use Rattle.complete_runs.specs.TakenWrites.{BlankRunsTakeWrites};
ghost use Rattle.complete_runs.specs.ToldLevels.{ToldLevelsReadBack, ToldPagesAreReadAtOnce};
ghost use Rattle.complete_runs.specs.TraceAnswers.{BlankRunsAnswerTraces};
ghost use Rattle.complete_runs.specs.UncountedRuns.{UncountedDiesCountNone, UncountedRunsAreFaultless};
ghost use Rattle.complete_runs.specs.UncountedRuns.{UncountedRunsReplyNoFault};

/// Where no die counted a fault, no entry tells of one, and no reply does.
pub fn uncounted_runs_tell_no_fault()
    ensures dies { UncountedDiesCountNone }
    ensures entries { UncountedRunsAreFaultless }
    ensures replies { UncountedRunsReplyNoFault }
{}

/// On a blank drive without weak blocks each write is then done.
pub fn blank_runs_take_writes()
    ensures { BlankRunsTakeWrites }
{}

/// On a blank drive whose first read level tells its cells apart, weak blocks or not, each read then answers what its row holds
/// by the writes and trims before it, as long as no call ages a block: data at the first rung, or that the row is empty.
pub fn blank_runs_answer_reads()
    ensures unaged { UnagedCallsAgeNone }
    ensures words { FirstSensesAnswerReads }
    ensures reads { BlankRunsAnswerReads }
{}

/// So each read answers what the calls before it in the trace left in its page, where no block is weak either: in a run that
/// was whole, and in one that stopped in a call.
pub fn blank_runs_answer_traces()
    ensures { BlankRunsAnswerTraces }
{}

/// With such a first read level each page that a row names is read from its first sense, in every lawful past without an
/// ageing.
pub fn told_pages_are_read_at_once()
    ensures levels { ToldLevelsReadBack }
    ensures pages { ToldPagesAreReadAtOnce }
{}

/// So a run is complete whose calls are in order, and one of which the statement holds.
pub fn runs_are_complete()
    ensures ordered { OrderedRunsAreComplete }
    ensures runs { RunsAreComplete }
{}

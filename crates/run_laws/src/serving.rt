//! Laws of runs whose calls are served one after the other, and of the text of a run.
ghost use Rattle.run_laws.specs.CountedFaults.{UncountedFaultsAreNone};
ghost use Rattle.run_laws.specs.PrintedRuns.{RunTextsTellPasts};
ghost use Rattle.run_laws.specs.ServedRuns.{ServedCallsGoOn, TagsGiveData};
ghost use Rattle.run_laws.specs.StoppedRuns.{StoppedCallsHold};

/// After a call that led the channels and the queue of hints on, one more was served.
pub fn served_calls_go_on()
    ensures { ServedCallsGoOn }
{}

/// The statement holds of a run that stopped in a call: before its first entry; in a write or a collect before any entry that
/// found no room; in a drain before the look of one of its refreshes.
pub fn stopped_calls_hold()
    ensures { StoppedCallsHold }
{}

/// The data of a write are found by its call's tag.
pub fn tags_give_data()
    ensures { TagsGiveData }
{}

/// Of a die whose count of work is at the end of a run what it was at the start, no entry tells that it failed.
pub fn uncounted_faults_are_none()
    ensures { UncountedFaultsAreNone }
{}

/// The text of a run tells its histories.
pub fn run_texts_tell_pasts()
    ensures { RunTextsTellPasts }
{}

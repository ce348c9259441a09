//! Whole runs: that they are lawful, that their calls are in order and served one after the other, and that each has its reply.
ghost use Rattle.past_examples.specs.RefreshExamples.{drained_run};
ghost use Rattle.past_examples.specs.RunExamples.{IsOutOfOrder, LacksReplies, begun_run, collected_run, entry_of_earlier, failed_run, faulted_run, freed_run, idle_run, left_open, two_unanswered, unfit_run, unknown_call, worn_run, wrong_rung};
ghost use Rattle.past_examples.specs.WorkedRuns.{HasReplies, IsInOrder, IsLawfulRun, IsServedAlone};

/// A write that collects the superblock with the most garbage: its steps are a round and the write.
#[tactic(auto, unfolding(ssd_geo::specs::Noise::noise_word))]
pub fn run_with_a_collection()
    ensures lawful { IsLawfulRun collected_run }
    ensures in_order { IsInOrder collected_run }
    ensures served { IsServedAlone collected_run }
    ensures replies { HasReplies collected_run }
{}

/// The same with a pick that no policy would make: the calls are still in order, and served alone.
#[tactic(auto, unfolding(ssd_geo::specs::Noise::noise_word))]
pub fn run_with_another_pick()
    ensures lawful { IsLawfulRun unfit_run }
    ensures in_order { IsInOrder unfit_run }
    ensures served { IsServedAlone unfit_run }
    ensures replies { HasReplies unfit_run }
{}

/// A channel that becomes full and then worn: a program and a copy answer FAIL, a page stays, and two writes are refused.
#[tactic(auto, unfolding(ssd_geo::specs::Noise::noise_word))]
pub fn run_on_a_worn_channel()
    ensures lawful { IsLawfulRun worn_run }
    ensures in_order { IsInOrder worn_run }
    ensures served { IsServedAlone worn_run }
    ensures replies { HasReplies worn_run }
{}

/// A collect of the blank channel finds nothing to do.
#[tactic(auto, unfolding(ssd_geo::specs::Noise::noise_word))]
pub fn run_with_an_idle_collect()
    ensures lawful { IsLawfulRun idle_run }
    ensures in_order { IsInOrder idle_run }
    ensures served { IsServedAlone idle_run }
    ensures replies { HasReplies idle_run }
{}

/// A collect copies the one live page of its victim and erases it.
#[tactic(auto, unfolding(ssd_geo::specs::Noise::noise_word))]
pub fn run_with_a_collect()
    ensures lawful { IsLawfulRun freed_run }
    ensures in_order { IsInOrder freed_run }
    ensures served { IsServedAlone freed_run }
    ensures replies { HasReplies freed_run }
{}

/// A read finds its page at the second level, and so a drain moves it; the next read finds it at the first.
#[tactic(auto, unfolding(ssd_geo::specs::Noise::noise_word))]
pub fn run_with_a_drain()
    ensures lawful { IsLawfulRun drained_run }
    ensures in_order { IsInOrder drained_run }
    ensures served { IsServedAlone drained_run }
    ensures replies { HasReplies drained_run }
{}

/// A read in which a die fails tells of the die, and the next one answers.
#[tactic(auto, unfolding(ssd_geo::specs::Noise::noise_word))]
pub fn run_with_a_fault()
    ensures lawful { IsLawfulRun faulted_run }
    ensures in_order { IsInOrder faulted_run }
    ensures served { IsServedAlone faulted_run }
    ensures replies { HasReplies faulted_run }
{}

/// A write whose first program answers FAIL is written into another superblock.
#[tactic(auto, unfolding(ssd_geo::specs::Noise::noise_word))]
pub fn run_with_a_weak_die()
    ensures lawful { IsLawfulRun failed_run }
    ensures in_order { IsInOrder failed_run }
    ensures served { IsServedAlone failed_run }
    ensures replies { HasReplies failed_run }
{}

/// Calls are in order also where an actor's last call has no reply and was begun.
pub fn begun_call()
    ensures { IsInOrder begun_run }
{}

/// What just misses, on the run with a drain: a reply that tells of another rung; an entry of a call that isn't in the trace;
/// entries of a call after one that wasn't answered; a call that was begun and whose look has no leave; and an entry of an
/// earlier call after those of a later one.
pub fn runs_that_just_miss()
    ensures rung { LacksReplies wrong_rung }
    ensures unknown { IsOutOfOrder unknown_call }
    ensures unanswered { IsOutOfOrder two_unanswered }
    ensures not_left { IsOutOfOrder left_open }
    ensures earlier { IsOutOfOrder entry_of_earlier }
{}

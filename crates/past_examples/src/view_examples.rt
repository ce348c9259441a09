//! Picks that follow the view that a policy tells, and picks that don't.
ghost use Rattle.std.specs.Prelude.{[], ◌∷◌};
ghost use Rattle.ssd_histories.specs.HistoryExamples.{IsLawfulExample, collected_history};
ghost use Rattle.past_examples.specs.ViewExamples.{FollowsPolicy, FollowsUntold, LeavesPolicy, TellsAfter, TellsNoView, unfit_history};
ghost use Rattle.ssd_geo.specs.declared.policy_view.PolicyKind.TheVariants.{Greedy, Oldest, RoundRobin};

/// The worked collection picks what each of the policies answers. After it Greedy tells what it told before, Oldest the
/// superblock that was erased, and RoundRobin its answer.
pub fn followed_policies()
    ensures greedy { FollowsPolicy Greedy collected_history }
    ensures oldest { FollowsPolicy Oldest collected_history }
    ensures round_robin { FollowsPolicy RoundRobin collected_history }
    ensures greedy_tells { TellsAfter Greedy collected_history [] }
    ensures oldest_tells { TellsAfter Oldest collected_history (0 ∷ []) }
    ensures round_robin_tells { TellsAfter RoundRobin collected_history (0 ∷ []) }
    ensures tells_none { TellsNoView collected_history }
{}

/// What just misses: a collection of another superblock with garbage. It is lawful, and follows where no view is told, but none
/// of the three policies would make its pick.
#[tactic(auto, unfolding(ssd_geo::specs::Noise::noise_word))]
pub fn unfit_pick()
    ensures lawful { IsLawfulExample [] unfit_history }
    ensures untold { FollowsUntold unfit_history }
    ensures greedy { LeavesPolicy Greedy unfit_history }
    ensures oldest { LeavesPolicy Oldest unfit_history }
    ensures round_robin { LeavesPolicy RoundRobin unfit_history }
{}

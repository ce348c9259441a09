//! Notes that are idle, calls that are collects, and what just misses.
ghost use Rattle.std.specs.Prelude.{◌≡◌, [], true, false, Some, None};
ghost use Rattle.ssd_histories.specs.HistoryExamples.{IsLawfulExample, freed_history, idle_history, weak_on_die_0};
ghost use Rattle.ssd_histories.specs.Rounds.{is_idle_note};
ghost use Rattle.past_examples.specs.CollectExamples.{IsCollectAfter, IsNoCollectAfter, MayEndAfter, ends_with_work, idle_before_copy, note, worn_collect};

/// A note is idle without a victim where nothing has garbage or nothing is free, and with a victim that has live pages or
/// open looks. It isn't where there is garbage to collect and room for it, nor where the victim may be erased.
pub fn example_notes()
    ensures blank { is_idle_note (note 4 None 0 0 0) ≡ true }
    ensures none_free { is_idle_note (note 0 None 0 0 2) ≡ true }
    ensures live { is_idle_note (note 0 (Some 0) 2 0 0) ≡ true }
    ensures pinned { is_idle_note (note 1 (Some 0) 0 1 0) ≡ true }
    ensures garbage { is_idle_note (note 2 None 0 0 1) ≡ false }
    ensures erasable { is_idle_note (note 1 (Some 0) 0 0 0) ≡ false }
{}

/// The histories are lawful: a page that stays and then an idle note, an idle note at once, and a note that isn't idle.
#[tactic(auto, unfolding(ssd_geo::specs::Noise::noise_word))]
pub fn noted_histories()
    ensures stays { IsLawfulExample weak_on_die_0 worn_collect }
    ensures at_once { IsLawfulExample weak_on_die_0 idle_before_copy }
    ensures garbage { IsLawfulExample [] ends_with_work }
{}

/// Collects: one with nothing to do, one that erases its victim, and one whose victim's page stays.
pub fn example_collects()
    ensures idle { IsCollectAfter [] 0 0 idle_history }
    ensures erases { IsCollectAfter [] 5 5 freed_history }
    ensures stays { IsCollectAfter weak_on_die_0 28 12 worn_collect }
{}

/// What just misses: a collect that ends with a note that isn't idle, and one that leaves a live page of its victim without a
/// copy.
pub fn example_no_collects()
    ensures not_idle { IsNoCollectAfter [] 5 5 ends_with_work }
    ensures no_copy { IsNoCollectAfter weak_on_die_0 28 12 idle_before_copy }
{}

/// An idle note that tells of live pages ends a collect after a page that stayed, and not at once.
pub fn example_collect_ends()
    ensures stays { MayEndAfter weak_on_die_0 12 worn_collect 4 true }
    ensures at_once { MayEndAfter weak_on_die_0 12 idle_before_copy 0 false }
{}

//! Counts of faults that fit a history, and counts that just miss.
ghost use Rattle.std.specs.Prelude.{◌-◌};
ghost use Rattle.ssd_histories.specs.HistoryExamples.{faulted_history, worn_history};
ghost use Rattle.past_examples.specs.CountExamples.{AreCounts, AreNoCounts, from_full, from_zero, with_loads};
ghost use Rattle.ssd_geo.specs.Faults.{greatest_count};

/// After one failed sense of die 1 its work count is 1 or more, and those of the others are 0. A program that answered
/// FAIL is no fault. A full count stays, and loads have a count of their own.
pub fn example_counts()
    ensures one { AreCounts (from_zero faulted_history 1 1) }
    ensures more { AreCounts (from_zero faulted_history 1 5) }
    ensures other_die { AreCounts (from_zero faulted_history 0 0) }
    ensures answered_fail { AreCounts (from_zero worn_history 0 0) }
    ensures full { AreCounts (from_full faulted_history greatest_count) }
    ensures loads { AreCounts (with_loads faulted_history 3) }
{}

/// What just misses: a failed sense that wasn't counted, also in a count that was all but full; a fault that was counted and
/// of which no entry tells; and a count of loads that fell or rose.
pub fn example_no_counts()
    ensures not_counted { AreNoCounts (from_zero faulted_history 1 0) }
    ensures below_full { AreNoCounts (from_full faulted_history (greatest_count - 1)) }
    ensures told_of_none { AreNoCounts (from_zero faulted_history 0 1) }
    ensures load_fell { AreNoCounts (with_loads faulted_history 2) }
    ensures load_rose { AreNoCounts (with_loads faulted_history 4) }
{}

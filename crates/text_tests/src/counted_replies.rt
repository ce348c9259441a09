//! Summaries whose counts of replies were worked out by hand.
ghost use Rattle.std.specs.Prelude.{◌≡◌};
ghost use Rattle.text_tests.specs.CountedReplies.{actor_run, write_kinds, write_replies, writes_text};
ghost use Rattle.text_tests.specs.CountedReplies.{read_kinds, read_replies, reads_text};
ghost use Rattle.text_tests.specs.CountedReplies.{refresh_kinds, refresh_replies, refreshes_text};
ghost use Rattle.text_tests.specs.CountedReplies.{drain_kinds, drain_replies, drains_text};

/// Each reply is counted where its call asks, and hints where data came at a rung above 0.
pub fn example_counted_replies()
    ensures writes { actor_run write_kinds write_replies 0 ≡ writes_text }
    ensures reads { actor_run read_kinds read_replies 1 ≡ reads_text }
    ensures refreshes { actor_run refresh_kinds refresh_replies 0 ≡ refreshes_text }
    ensures drains { actor_run drain_kinds drain_replies 0 ≡ drains_text }
{}

//! What calls of the worked histories answer, and which policies would make their picks.
ghost use Rattle.std.specs.Prelude.{◌≡◌, []};
ghost use Rattle.ssd_histories.specs.CallExamples.{IsCollectExample, IsSerialWriteExample, IsWriteExample, PicksAs, ReadReplies, WriteReplies, steps_in};
ghost use Rattle.ssd_histories.specs.HistoryExamples.{
  collected_history,
  faulted_history,
  freed_history,
  idle_history,
  overwritten_history,
  trimmed_history,
  weak_on_die_0,
  worn_history,
};
ghost use Rattle.ssd_histories.specs.Replies.{collect_reply};
ghost use Rattle.ssd_geo.specs.declared.policy_view.PolicyKind.TheVariants.{Greedy, Oldest, RoundRobin};
ghost use Rattle.ssd_geo.specs.declared.reply.Reply.TheVariants as reply;

/// The replies of writes: done after a collection; refused since the channel is full, and since it is worn.
pub fn write_replies()
    ensures collected { WriteReplies collected_history 12 reply.Ok }
    ensures full { WriteReplies worn_history 8 reply.Full }
    ensures worn { WriteReplies worn_history 10 reply.ReadOnly }
{}

/// The replies of reads: of an empty row, of a page, and after a sense in which die 1 failed.
#[tactic(auto, unfolding(ssd_geo::specs::Noise::noise_word))]
pub fn read_replies()
    ensures empty { ReadReplies [] trimmed_history 0 reply.Empty }
    ensures data { ReadReplies [] overwritten_history 2 (reply.Data 0 []) }
    ensures fault { ReadReplies [] faulted_history 1 (reply.DieFault 1) }
    ensures worn { ReadReplies weak_on_die_0 worn_history 11 (reply.Data 0 []) }
{}

/// The replies of collects: one that erased a superblock, and one with nothing to do.
pub fn collect_replies()
    ensures freed { collect_reply (steps_in freed_history 0 5) ≡ reply.Collected 0 }
    ensures idle { collect_reply (steps_in idle_history 0 0) ≡ reply.Idle }
{}

/// The picks of a write's collection are those that each of the policies would make.
pub fn example_picks_followed()
    ensures greedy { PicksAs Greedy collected_history }
    ensures oldest { PicksAs Oldest collected_history }
    ensures round_robin { PicksAs RoundRobin collected_history }
{}

/// The last write of the worked collection is a round and then a write of its row, also by the rules for a call that is
/// served alone; and the worked collect is a round that erases.
pub fn example_rounds()
    ensures write { IsWriteExample collected_history 12 5 }
    ensures serial { IsSerialWriteExample collected_history 12 12 5 }
    ensures collect { IsCollectExample freed_history 5 }
{}

//! Reads that leave a hint, and the queue that takes it.
ghost use Rattle.std.specs.Prelude.{◌≡◌, [], true, false, Some};
ghost use Rattle.ssd_histories.specs.SerialHistory.{is_hint};
ghost use Rattle.past_examples.specs.HintExamples.{IsDroppedAfter, IsPushedAfter};
ghost use Rattle.ssd_geo.specs.declared.reply.Reply.TheVariants as reply;

/// A read whose data came at the second level is a hint. One whose data came at the first isn't, nor is one without data.
pub fn example_hints()
    ensures second_level { is_hint (Some (reply.Data 1 [])) ≡ true }
    ensures first_level { is_hint (Some (reply.Data 0 [])) ≡ false }
    ensures empty { is_hint (Some reply.Empty) ≡ false }
    ensures uncorrectable { is_hint (Some reply.Uncorrectable) ≡ false }
    ensures fault { is_hint (Some (reply.DieFault 1)) ≡ false }
{}

/// The queue takes its last page, and drops the one after it.
pub fn example_queue()
    ensures none_waits { IsPushedAfter 0 }
    ensures last_place { IsPushedAfter 255 }
    ensures full { IsDroppedAfter 256 }
{}

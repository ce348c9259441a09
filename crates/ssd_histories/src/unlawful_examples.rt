//! Histories that aren't lawful: each has one entry that breaks the condition of its kind.
ghost use Rattle.std.specs.Prelude.{[]};
ghost use Rattle.ssd_histories.specs.HistoryExamples.{IsUnlawfulExample, weak_on_die_0};
ghost use Rattle.ssd_histories.specs.UnlawfulExamples.{early_closing, early_leave, erase_under_pin, free_pick, needless_refusal, sense_after_fault, skipped_slot, sound_failure, stale_move, write_without_room, wrong_flag};

/// Steps of a collection that break a rule: an erase under an open look, a copy over a new write, a write into the
/// last free superblock, a pick of a free one, and a copy that stays with the wrong flag.
#[tactic(auto, unfolding(ssd_geo::specs::Noise::noise_word))]
pub fn unlawful_collections()
    ensures erase_under_pin { IsUnlawfulExample [] erase_under_pin }
    ensures stale_move { IsUnlawfulExample [] stale_move }
    ensures write_without_room { IsUnlawfulExample [] write_without_room }
    ensures free_pick { IsUnlawfulExample [] free_pick }
    ensures wrong_flag { IsUnlawfulExample weak_on_die_0 wrong_flag }
{}

/// Writes that break a rule: a slot is left out, a write is refused with room, and a program answers FAIL without
/// a weak block.
#[tactic(auto, unfolding(ssd_geo::specs::Noise::noise_word))]
pub fn unlawful_writes()
    ensures skipped_slot { IsUnlawfulExample [] skipped_slot }
    ensures needless_refusal { IsUnlawfulExample [] needless_refusal }
    ensures sound_failure { IsUnlawfulExample [] sound_failure }
{}

/// Looks that break a rule: a closed stripe is said to be open, a sense follows one that failed, and a look is left
/// before its page was sensed.
#[tactic(auto, unfolding(ssd_geo::specs::Noise::noise_word))]
pub fn unlawful_looks()
    ensures early_closing { IsUnlawfulExample [] early_closing }
    ensures sense_after_fault { IsUnlawfulExample [] sense_after_fault }
    ensures early_leave { IsUnlawfulExample [] early_leave }
{}

//! Histories that are lawful, and histories that aren't since one entry is another.
ghost use Rattle.std.specs.Prelude.{[]};
ghost use Rattle.ssd_histories.specs.HistoryExamples.{
  AreWithinLimits,
  IsLawfulExample,
  collected_history,
  faulted_history,
  freed_history,
  idle_history,
  overwritten_history,
  pinned_history,
  trimmed_history,
  weak_on_die_0,
  worn_history,
};

/// The sizes that the examples speak of are within the limits.
pub fn example_sizes()
    ensures { AreWithinLimits }
{}

/// A row that is read, written, trimmed and read, and one that is written twice and read.
#[tactic(auto, unfolding(ssd_geo::specs::Noise::noise_word))]
pub fn simple_histories()
    ensures trimmed { IsLawfulExample [] trimmed_history }
    ensures overwritten { IsLawfulExample [] overwritten_history }
{}

/// A look in which a die's call failed.
#[tactic(auto, unfolding(ssd_geo::specs::Noise::noise_word))]
pub fn faulted_sense()
    ensures { IsLawfulExample [] faulted_history }
{}

/// A collect with nothing to do, and one that frees a superblock.
#[tactic(auto, unfolding(ssd_geo::specs::Noise::noise_word))]
pub fn collects()
    ensures idle { IsLawfulExample [] idle_history }
    ensures freed { IsLawfulExample [] freed_history }
{}

/// A look that stands in the victim.
#[tactic(auto, unfolding(ssd_geo::specs::Noise::noise_word))]
pub fn pinned_victim()
    ensures { IsLawfulExample [] pinned_history }
{}

/// A write that makes room by a collection.
#[tactic(auto, unfolding(ssd_geo::specs::Noise::noise_word))]
pub fn collection()
    ensures { IsLawfulExample [] collected_history }
{}

/// A channel that becomes worn.
#[tactic(auto, unfolding(ssd_geo::specs::Noise::noise_word))]
pub fn worn_channel()
    ensures { IsLawfulExample weak_on_die_0 worn_history }
{}

// The next word of the generator.
ghost use Rattle.std.specs.Prelude.{◌≡◌};
ghost use Rattle.ssd_geo.specs.Noise.{noise_word, state_after};

use rand_core::utils::NextWord;
use rand_xoshiro::SplitMix64;

/// Takes the next word.
#[tactic(auto, unfolding(ssd_geo::specs::Noise::noise_word))]
pub fn draw(noise: &mut SplitMix64) -> u64
    ensures word { result ≡ noise_word noise.old 0 }
    ensures after { noise.new ≡ state_after noise.old 1 }
{
    noise.next_word()
}

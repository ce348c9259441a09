ghost use Rattle.std.specs.Prelude.{◌≡◌, pos, negsuc, [], ◌∷◌, map, replicate};
ghost use Rattle.std.specs.List.{range_with_len};
ghost use Rattle.ssd_geo.specs.Noise.{start_of_program, noise_word, noise_of_cell};
ghost use Rattle.ssd_geo.specs.Cells.{levels_of_five, aged_level, sensed};

/// The first program of the first page, from the seed 0: its first word, and the noise of its first four cells at
/// a spread of 3.
#[tactic(auto, unfolding(crate::specs::Noise::noise_word))]
pub fn noise_from_zero()
    ensures start { start_of_program 0 0 0 ≡ 0 }
    ensures word { noise_word 0 0 ≡ 0xe220a8397b1dcdaf }
    ensures noise { map (noise_of_cell 3 0) (range_with_len 0 4) ≡ negsuc 1 ∷ pos 0 ∷ negsuc 1 ∷ pos 2 ∷ [] }
{}

/// The byte 05h without noise, at the levels -100 and 100: cells 0 and 2 are erased, and a sense at 0 gives the
/// byte. After ageing by 150 a sense at 0 reads 1 in every cell, and one at -60 still gives the byte.
pub fn senses_of_a_byte()
    ensures fresh { levels_of_five ≡ negsuc 99 ∷ pos 100 ∷ negsuc 99 ∷ replicate 5 (pos 100) }
    ensures clean { sensed (pos 0) levels_of_five ≡ 5 ∷ [] }
    ensures aged { sensed (pos 0) (map (aged_level (negsuc 99) 150) levels_of_five) ≡ 255 ∷ [] }
    ensures lower { sensed (negsuc 59) (map (aged_level (negsuc 99) 150) levels_of_five) ≡ 5 ∷ [] }
{}

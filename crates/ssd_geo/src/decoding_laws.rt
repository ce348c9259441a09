ghost use Rattle.std.specs.Prelude.{◌≡◌, ℕ, ◌<◌, ◌≤◌, ℤ, List, All, length, slice_index_or};
ghost use Rattle.ssd_geo.specs.BaseMatrix.{BaseMatrix, IsAccepted, layer_of};
ghost use Rattle.ssd_geo.specs.Bits.{IsOfBits};
ghost use Rattle.ssd_geo.specs.Codewords.{IsCodeword, word_bits};
ghost use Rattle.ssd_geo.specs.Layer.{variable_of};
ghost use Rattle.ssd_geo.specs.LayerNumbers.{IsLayer};
ghost use Rattle.ssd_geo.specs.RowRule.{IsWithin, row_rule};
ghost use Rattle.ssd_geo.specs.Decoding.{decode, layer_worked};

/// A check row that is given numbers from -127 to 127 tells each edge a number from -95 to 95.
pub fn row_rule_is_bounded()
    ensures { (q : List ℤ) → All (IsWithin 127) q → All (IsWithin 95) (row_rule q) }
{}

/// The numbers of the variables stay from -222 to 222 and those of the edges from -95 to 95, whatever the layer.
pub fn layer_keeps_bounds()
    ensures variables { (layer : List (ℕ × ℕ)) (z : ℕ) (p r : List ℤ) → All (IsWithin 222) p
        → All (IsWithin 222) (layer_worked layer z (p, r)).0 }
    ensures edges { (layer : List (ℕ × ℕ)) (z : ℕ) (p r : List ℤ) → All (IsWithin 95) r
        → All (IsWithin 95) (layer_worked layer z (p, r)).1 }
{}

/// Each base row of an accepted matrix makes a layer, and its columns are those of the matrix. A variable of a layer
/// belongs to one block and one check row, so the check rows of a layer share no variable.
pub fn accepted_rows_are_layers()
    ensures layers { (m : BaseMatrix) → IsAccepted m → (i : ℕ) → i < m.mb → IsLayer m.z (layer_of m i) }
    ensures columns { (m : BaseMatrix) → IsAccepted m → (i : ℕ) → i < m.mb
        → All (λ block. block.0 < m.nb) (layer_of m i) }
    ensures apart { (z : ℕ) (layer : List (ℕ × ℕ)) → IsLayer z layer → (i j t u : ℕ) → i < length layer
        → j < length layer → t < z → u < z
        → variable_of z t (slice_index_or layer i (0, 0)) ≡ variable_of z u (slice_index_or layer j (0, 0))
        → (i ≡ j) × (t ≡ u) }
{}

/// What the decoder finds is a codeword, and it takes no more iterations than the limit.
pub fn found_words_are_codewords()
    ensures codeword { (m : BaseMatrix) (limit : ℕ) (values : List ℤ) (n : ℕ) (word : List ℕ)
        → length values ≡ word_bits m → decode m limit values ≡ Some (n, word) → IsCodeword m word }
    ensures of_bits { (m : BaseMatrix) (limit : ℕ) (values : List ℤ) (n : ℕ) (word : List ℕ)
        → length values ≡ word_bits m → decode m limit values ≡ Some (n, word)
        → IsOfBits (word_bits m) word }
    ensures bounded { (m : BaseMatrix) (limit : ℕ) (values : List ℤ) (n : ℕ) (word : List ℕ)
        → decode m limit values ≡ Some (n, word) → n ≤ limit }
{}

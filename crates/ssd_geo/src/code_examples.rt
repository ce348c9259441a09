//! The definitions of bits, base matrices and codewords at examples that were worked out by hand.
ghost use Rattle.std.specs.Prelude.{[], ◌∷◌, ◌≡◌, false, None, pos, Some, true};
ghost use Rattle.ssd_geo.specs.BaseMatrix.{diagonal, first_fault};
ghost use Rattle.ssd_geo.specs.Bits.{bits_of, rotated};
ghost use Rattle.ssd_geo.specs.CodeExamples.{matrix_with, small_matrix};
ghost use Rattle.ssd_geo.specs.Codewords.{failed_checks, first_parity, parity_block, code_of};

/// Bits stand lowest first in their bytes, and a shift of 1 takes each bit from the place after it.
pub fn example_bits()
    ensures lowest_first { bits_of 10 (1 ∷ 2 ∷ [])
        ≡ true ∷ false ∷ false ∷ false ∷ false ∷ false ∷ false ∷ false ∷ false ∷ true ∷ [] }
    ensures shift { rotated 1 (true ∷ false ∷ true ∷ true ∷ []) ≡ false ∷ true ∷ true ∷ true ∷ [] }
{}

/// The payload byte 01h under a small matrix: its parity blocks, its word, and a word with one bit changed.
pub fn example_word()
    ensures faultless { first_fault small_matrix ≡ None }
    ensures first_block { first_parity small_matrix (bits_of 8 (1 ∷ [])) ≡ true ∷ true ∷ false ∷ false ∷ [] }
    ensures second_block { parity_block small_matrix (bits_of 8 (1 ∷ [])) 1 ≡ false ∷ false ∷ false ∷ true ∷ [] }
    ensures third_block { parity_block small_matrix (bits_of 8 (1 ∷ [])) 2 ≡ true ∷ true ∷ false ∷ true ∷ [] }
    ensures word { code_of small_matrix (1 ∷ []) ≡ 1 ∷ 131 ∷ 11 ∷ [] }
    ensures codeword { failed_checks small_matrix (1 ∷ 131 ∷ 11 ∷ []) ≡ 0 }
    ensures flipped { failed_checks small_matrix (0 ∷ 131 ∷ 11 ∷ []) ≡ 2 }
{}

/// A 1 in the dual diagonal is the first fault of a matrix that is accepted with 0 there.
pub fn example_fault()
    ensures accepted { first_fault (matrix_with (pos 0)) ≡ None }
    ensures refused { first_fault (matrix_with (pos 1)) ≡ Some (diagonal 0 4) }
{}

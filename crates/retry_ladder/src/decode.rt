ghost use Rattle.std.specs.Prelude.{◌≡◌, ◌+◌, ◌/◌, All, length};
ghost use Rattle.retry_ladder.specs.Decoder.{IsDecoded};
ghost use Rattle.ssd_geo.specs.Codewords.{failed_checks, word_bits};
ghost use Rattle.ssd_geo.specs.Decoding.{decode};
ghost use Rattle.ssd_geo.specs.RowRule.{IsWithin};

/// Finds a codeword from its values. It has a base matrix and an iteration limit, which
/// no call changes.
pub trait Decode {
    ghost use Rattle.std.specs.Prelude.{ℕ};
    ghost use Rattle.ssd_geo.specs.BaseMatrix.{BaseMatrix};

    ghost matrix: { Self → BaseMatrix };

    ghost limit: { Self → ℕ };

    /// How many checks a raw word fails.
    fn failed(&self, bits: &[u8]) -> u32
        requires { length bits.now ≡ (word_bits (matrix self.now) + 7) / 8 }
        ensures { result ≡ failed_checks (matrix self.now) bits.now };

    /// Writes the codeword that the values lead to, and answers how many iterations it took; none
    /// is written where none is found.
    fn decode(&mut self, values: &[i8], word: &mut [u8]) -> Option<u8>
        requires values_len { length values.now ≡ word_bits (matrix self.old) }
        requires values_within { All (IsWithin 127) values.now }
        requires word_len { length word.old ≡ (word_bits (matrix self.old) + 7) / 8 }
        ensures answer { IsDecoded (decode (matrix self.old) (limit self.old) values.now)
            word.old result word.new }
        ensures matrix { matrix self.new ≡ matrix self.old }
        ensures limit { limit self.new ≡ limit self.old };
}

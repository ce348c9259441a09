ghost use Rattle.std.specs.Prelude.{◌≡◌, ◌+◌, ◌/◌, ◌<◌, ◌≤◌, count_by, length};
ghost use Rattle.std.specs.List.{range_with_len};
ghost use Rattle.ssd_geo.specs.Bits.{bits_of};
ghost use Rattle.ssd_geo.specs.Codewords.{failed_checks, is_codeword, is_odd_row, word_bits};

use super::code::Code;
use ssd_bits::{rotate_xor_into, weight};

/// Bytes of the greatest block, of a lifting size of 1,024.
const BLOCK_BYTES: usize = 128;

impl Code {
    /// How many check rows of a word have an odd sum.
    pub fn failed_checks(&self, word: &[u8]) -> u32
        requires { length word.now ≡ (word_bits self.now + 7) / 8 }
        ensures { result ≡ failed_checks self.now word.now }
    {
        let mut failed = 0;
        for i in 0..self.mb() {
            failed += self.odd_rows(i, word);
        }
        failed
    }

    /// Whether no check row of a word has an odd sum. The first base row with one that has ends the test.
    pub fn is_codeword(&self, word: &[u8]) -> bool
        requires { length word.now ≡ (word_bits self.now + 7) / 8 }
        ensures { result ≡ is_codeword self.now (bits_of (word_bits self.now) word.now) }
    {
        for row in 0..self.mb() {
            if self.odd_rows(row, word) != 0 {
                return false;
            }
        }
        true
    }

    // How many check rows of base row i have an odd sum: the ones in the sum of its turned blocks.
    fn odd_rows(&self, i: u8, word: &[u8]) -> u32
        requires row { i < self.now.mb }
        requires whole { length word.now ≡ (word_bits self.now + 7) / 8 }
        ensures value { result
            ≡ count_by (is_odd_row self.now (bits_of (word_bits self.now) word.now) i)
            (range_with_len 0 self.now.z) }
        ensures bound { result ≤ self.now.z }
    {
        let z = self.z() as usize;
        let mut sums = [0; BLOCK_BYTES];
        for &(column, shift) in self.layer(i) {
            rotate_xor_into(&mut sums, 0, word, column as usize * z, z, shift as usize);
        }
        weight(&sums)
    }
}

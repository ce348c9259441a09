ghost use Rattle.std.specs.Prelude.{◌≡◌, length};
ghost use Rattle.ssd_geo.specs.Bits.{bytes_sum};
ghost use Rattle.ssd_geo.specs.StripeSum.{zero_word};

use ssd_bits::xor_into;
use std::marker::Model;

/// The sum, bit by bit, of the words that were added since it was cleared. Contracts see it as the sum's bytes.
#[derive(Debug, Drop)]
pub struct StripeSum {
    sum: Vec<u8>,
}

impl Model for StripeSum {
    ghost use Rattle.std.specs.Prelude.{ℕ, List};

    ghost Value = { List ℕ };

    ghost view = { λ a. a.sum.items };
}

impl StripeSum {
    /// The sum so far: zeros where a stripe begins, or the sum that an image keeps of an open stripe.
    pub fn new(bytes: Vec<u8>) -> StripeSum
        ensures { result ≡ bytes.items }
    {
        StripeSum { sum: bytes }
    }

    /// Adds a word.
    pub fn add(&mut self, word: &[u8])
        requires { length word.now ≡ length self.old }
        ensures { self.new ≡ bytes_sum self.old word.now }
    {
        xor_into(&mut self.sum, word);
    }

    /// Begins a stripe: no word is in the sum.
    pub fn clear(&mut self)
        ensures { self.new ≡ zero_word (length self.old) }
    {
        self.sum.fill(0);
    }

    /// The sum.
    pub fn bytes(&self) -> &[u8]
        ensures { result.now ≡ self.now }
    {
        &self.sum
    }

    /// Gives the sum's bytes back.
    pub fn into_bytes(self) -> Vec<u8>
        ensures { result.items ≡ self }
    {
        let StripeSum { sum } = self;
        sum
    }
}

ghost use Rattle.std.specs.Prelude.{◌≡◌, ◌<◌, ◌≤◌, ◌*◌, cond, length, pos, slice_index_or};
ghost use Rattle.ssd_geo.specs.Bits.{bytes_of, number_of};
ghost use Rattle.ssd_geo.specs.Decoding.{decided};
ghost use Rattle.ssd_geo.specs.RowRule.{is_negative};

use retry_ladder::Decode;

// The decoder of a code without a check, of three base rows, six base columns and the lifting size
// 64: each word is a codeword, and the one that is found is the hard decision.
#[derive(Clone, Copy)]
pub struct AnyWord;

impl Decode for AnyWord {
    ghost use Rattle.std.specs.Prelude.{[]};

    ghost matrix = { λ decoder. record { z = 64; mb = 3; nb = 6; entries = [] } };

    ghost limit = { λ decoder. 1 };

    fn failed(&self, _bits: &[u8]) -> u32 {
        0
    }

    fn decode(&mut self, values: &[i8], word: &mut [u8]) -> Option<u8> {
        decide(values, word);
        Some(0)
    }
}

// The same for the lifting size 32.
#[derive(Clone, Copy)]
pub struct AnyHalf;

impl Decode for AnyHalf {
    ghost use Rattle.std.specs.Prelude.{[]};

    ghost matrix = { λ decoder. record { z = 32; mb = 3; nb = 6; entries = [] } };

    ghost limit = { λ decoder. 1 };

    fn failed(&self, _bits: &[u8]) -> u32 {
        0
    }

    fn decode(&mut self, values: &[i8], word: &mut [u8]) -> Option<u8> {
        decide(values, word);
        Some(0)
    }
}

// The bit that a value makes: 1 exactly where it is below 0.
fn bit(values: &[i8], i: usize) -> u8
    requires { i < length values.now }
    ensures value { result ≡ cond (is_negative (slice_index_or values.now i (pos 0))) 1 0 }
    ensures small { result ≤ 1 }
{
    u8::from(values[i] < 0)
}

// The byte of the bits that eight values make.
fn packed(values: &[i8]) -> u8
    requires { length values.now ≡ 8 }
    ensures { result ≡ number_of (decided values.now) }
{
    let low = bit(values, 0) + 2 * bit(values, 1) + 4 * bit(values, 2) + 8 * bit(values, 3);
    let high = bit(values, 4) + 2 * bit(values, 5) + 4 * bit(values, 6) + 8 * bit(values, 7);
    low + 16 * high
}

// Writes the hard decision.
fn decide(values: &[i8], word: &mut [u8])
    requires { length values.now ≡ 8 * length word.old }
    ensures { word.new ≡ bytes_of (decided values.now) }
{
    for j in 0..word.len() {
        word[j] = packed(&values[8 * j..8 * j + 8]);
    }
}

ghost use Rattle.std.specs.Prelude.{◌≡◌, ℕ, ◌+◌, ◌*◌, ◌/◌, ◌<◌, ◌≤◌, length, slice_index};
ghost use Rattle.std.specs.Simd.Lanes.{chunk};
ghost use Rattle.ssd_geo.specs.Bits.{byte_of, bytes_of, number_of};
ghost use Rattle.ssd_geo.specs.Decoding.{decided};

use std::simd::prelude::*;

/// Writes the hard decision.
pub fn decide(p: &[i16], word: &mut [u8])
    requires { length word.old ≡ (length p.now + 7) / 8 }
    ensures { word.new ≡ bytes_of (decided p.now) }
{
    decide_words(p, word);
    for j in 8 * (p.len() / 64)..word.len() {
        let from = 8 * j;
        let to = p.len().min(from + 8);
        word[j] = packed(&p[from..to]);
    }
}

// Writes the bytes of all whole words of 64 numbers.
fn decide_words(p: &[i16], word: &mut [u8])
    requires { 8 * (length p.now / 64) ≤ length word.old }
    ensures { (k : ℕ) → k < 8 * (length p.now / 64) → slice_index word.new k ≡ byte_of (decided p.now) k }
{
    for w in 0..p.len() / 64 {
        let bits = decided_word(p, 64 * w);
        word[8 * w..8 * w + 8].copy_from_slice(&bits.to_le_bytes());
    }
}

// The bits of 64 numbers from a place on. Each number is tested into a byte, so that the tests are one run of vector
// steps, and the bytes make one mask.
#[inline(always)]
fn decided_word(p: &[i16], at: usize) -> u64
    requires { at + 64 ≤ length p.now }
    ensures { result ≡ number_of (decided (chunk at 64 p.now)) }
{
    let mut tests = [0u8; 64];
    for i in 0..64 {
        tests[i] = if p[at + i] < 0 { 255 } else { 0 };
    }
    u8x64::from_array(tests)
        .simd_eq(u8x64::splat(255))
        .to_bitmask()
}

// The byte whose bits are 1 exactly where a number is below 0.
fn packed(numbers: &[i16]) -> u8
    requires { length numbers.now ≤ 8 }
    ensures { result ≡ number_of (decided numbers.now) }
{
    let mut byte = 0u8;
    for k in 0..numbers.len() {
        let number = numbers[numbers.len() - 1 - k];
        byte = 2 * byte + u8::from(number < 0);
    }
    byte
}

ghost use Rattle.std.specs.Prelude.{◌≡◌, ◌+◌, ◌*◌, ◌^◌, ◌<◌, length};
ghost use Rattle.ssd_geo.specs.Bits.{bit_of, bits_of, weight_of};

use super::word::word_at;

/// Whether bit `i` is 1, the lowest bit of a byte first.
pub fn get(bytes: &[u8], i: usize) -> bool
    requires { i < 8 * length bytes.now }
    ensures { result ≡ bit_of bytes.now i }
{
    (bytes[i / 8] >> (i % 8)) & 1 == 1
}

/// How many bits are 1.
pub fn weight(bytes: &[u8]) -> u32
    requires { length bytes.now < 2 ^ 29 }
    ensures { result ≡ weight_of (bits_of (8 * length bytes.now) bytes.now) }
{
    let words = bytes.len() / 8;
    let mut ones = 0;
    for w in 0..words {
        ones += word_at(bytes, 8 * w).count_ones();
    }
    for i in 8 * words..bytes.len() {
        ones += bytes[i].count_ones();
    }
    ones
}

ghost use Rattle.std.specs.Prelude.{◌≡◌, length};
ghost use Rattle.ssd_geo.specs.Bits.{bytes_sum};

use super::place::BitPlace;
use super::run::xor_rest;
use super::word::{word_at, xor_word};

/// Adds each bit of `src` to the bit of `dst` at its place.
pub fn xor_into(dst: &mut [u8], src: &[u8])
    requires { length dst.old ≡ length src.now }
    ensures { dst.new ≡ bytes_sum dst.old src.now }
{
    let words = src.len() / 8;
    for w in 0..words {
        xor_word(dst, 8 * w, word_at(src, 8 * w));
    }
    let end = BitPlace {
        byte: 8 * words,
        bit: 0,
    };
    xor_rest(dst, end, src, end, 8 * (src.len() % 8));
}

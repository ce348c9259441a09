ghost use Rattle.std.specs.Prelude.{◌≡◌, ◌*◌, ◌∷◌, [], length};
ghost use Rattle.ssd_geo.specs.Senses.{hard_values};

use crate::zeros::PLACES;
use std::simd::prelude::*;

/// The values of the bits of one sense, eight for each of its bytes.
pub fn hard_values(bits: &[u8], out: &mut [i8])
    requires { length out.old ≡ 8 * length bits.now }
    ensures { out.new ≡ hard_values bits.now }
{
    for (j, byte) in bits.iter().enumerate() {
        eight_hard(*byte).copy_to_slice(&mut out[8 * j..]);
    }
}

// The values of the bits of a byte, which are those of a sense of one byte.
#[inline(always)]
fn eight_hard(byte: u8) -> i8x8
    ensures { result ≡ hard_values (byte ∷ []) }
{
    (u8x8::splat(byte) & u8x8::from_array(PLACES))
        .simd_eq(u8x8::splat(0))
        .select(i8x8::splat(32), i8x8::splat(-32))
}

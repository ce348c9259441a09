// Where the bits of a byte are 0, one bit to a lane.
ghost use Rattle.std.specs.Prelude.{◌≡◌, ◌∷◌, [], cond, map};
ghost use Rattle.std.specs.List.{range_with_len};
ghost use Rattle.ssd_geo.specs.Bits.{bit_of};

use std::simd::prelude::*;

// The bits of a byte, each alone.
pub const PLACES: [u8; 8] = [1, 2, 4, 8, 16, 32, 64, 128];

// 1 where a bit of a byte is 0, and 0 where it is 1.
#[inline(always)]
pub fn zero_lanes(byte: u8) -> u8x8
    ensures { result ≡ map (λ i. cond (bit_of (byte ∷ []) i) 0 1) (range_with_len 0 8) }
{
    (u8x8::splat(byte) & u8x8::from_array(PLACES))
        .simd_eq(u8x8::splat(0))
        .select(u8x8::splat(1), u8x8::splat(0))
}

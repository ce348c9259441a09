ghost use Rattle.std.specs.Prelude.{◌≡◌, ◌*◌, ◌≤◌, ◌∷◌, [], All, length, map};
ghost use Rattle.ssd_geo.specs.Senses.{five_senses, soft_value, soft_values};

use crate::zeros::zero_lanes;
use std::simd::prelude::*;

/// The values of the bits of a page that was sensed five times. The senses stand one after the other.
pub fn soft_values(five: &[u8], bytes: usize, out: &mut [i8])
    requires senses { length five.now ≡ 5 * bytes }
    requires out { length out.old ≡ 8 * bytes }
    ensures { out.new ≡ soft_values bytes (five_senses bytes five.now) }
{
    for j in 0..bytes {
        let at = [
            five[j],
            five[bytes + j],
            five[2 * bytes + j],
            five[3 * bytes + j],
            five[4 * bytes + j],
        ];
        eight_soft(&at).copy_to_slice(&mut out[8 * j..]);
    }
}

// The values of the bits of five bytes, which are those of five senses of one byte.
#[inline(always)]
fn eight_soft(five: &[u8; 5]) -> i8x8
    ensures { result ≡ soft_values 1 (map (λ byte. byte ∷ []) five.now) }
{
    values_of(
        zero_lanes(five[0])
            + zero_lanes(five[1])
            + zero_lanes(five[2])
            + zero_lanes(five[3])
            + zero_lanes(five[4]),
    )
}

// The values of eight cells, by how many of the five senses give 0.
#[inline(always)]
fn values_of(zeros: u8x8) -> i8x8
    requires { All (λ n. n ≤ 5) zeros }
    ensures { result ≡ map soft_value zeros }
{
    let most = zeros
        .simd_eq(u8x8::splat(4))
        .select(i8x8::splat(48), i8x8::splat(96));
    let more = zeros.simd_eq(u8x8::splat(3)).select(i8x8::splat(16), most);
    let fewer = zeros.simd_eq(u8x8::splat(2)).select(i8x8::splat(-16), more);
    let few = zeros
        .simd_eq(u8x8::splat(1))
        .select(i8x8::splat(-48), fewer);
    zeros.simd_eq(u8x8::splat(0)).select(i8x8::splat(-96), few)
}

ghost use Rattle.std.specs.Prelude.{◌≡◌, ◌+◌, ◌*◌, ◌≤◌, length, map};
ghost use Rattle.std.specs.Simd.Lanes.{chunk};
ghost use Rattle.ssd_geo.specs.Bits.{number_of};
ghost use Rattle.ssd_geo.specs.Cells.{sensed_bit, sensed};

use std::simd::prelude::*;

/// What a sense at a level reads of a page's cells, eight cells to a byte.
pub fn sense_into(levels: &[i16], level: i16, out: &mut [u8])
    requires { length levels.now ≡ 8 * length out.old }
    ensures { out.new ≡ sensed level levels.now }
{
    let words = out.len() / 8;
    for w in 0..words {
        let bits = sensed_word::<64>(levels, 64 * w, level);
        out[8 * w..8 * w + 8].copy_from_slice(&bits.to_le_bytes());
    }
    for j in 8 * words..out.len() {
        out[j] = sensed_word::<8>(levels, 8 * j, level) as u8;
    }
}

// The bits of the cells from a place on. Each cell is tested into a byte, so that the tests are one run of vector
// steps, and the bytes make one mask.
#[inline(always)]
fn sensed_word<const L: usize>(levels: &[i16], at: usize, level: i16) -> u64
    requires lanes { L ≤ 64 }
    requires room { at + L ≤ length levels.now }
    ensures { result ≡ number_of (map (sensed_bit level) (chunk at L levels.now)) }
{
    let mut tests = [0u8; L];
    for i in 0..L {
        tests[i] = if levels[at + i] < level { 255 } else { 0 };
    }
    Simd::<u8, L>::from_array(tests)
        .simd_eq(Simd::splat(255))
        .to_bitmask()
}

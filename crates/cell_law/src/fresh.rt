ghost use Rattle.std.specs.Prelude.{◌≡◌, ℕ, ◌+◌, ◌*◌, ◌/◌, ◌%◌, ◌^◌, ◌<◌, ◌≤◌, ◌++◌, ◌==◌, if◌then◌else◌, length, map};
ghost use Rattle.std.specs.List.{range_with_len};
ghost use Rattle.std.specs.Int.{bit_at};
ghost use Rattle.ssd_geo.specs.Cells.{IsCellLaw, fresh_levels};
ghost use Rattle.ssd_geo.specs.Noise.{start_of_program};
ghost use Rattle.cell_law.specs.Quad.{parts_of, quad_levels};

use rand_core::SeedableRng;
use rand_core::utils::NextWord;
use rand_xoshiro::SplitMix64;
use ssd_geo::CellLaw;
use std::simd::prelude::*;

/// The levels of a page's cells as a program of a word leaves them. One generator serves the page, and four cells
/// share each of its words.
pub fn fresh_into(law: &CellLaw, place: u32, erases: u32, word: &[u8], out: &mut [i16])
    requires law { IsCellLaw law.now }
    requires cells { length out.old ≡ 8 * length word.now }
    ensures { out.new ≡ fresh_levels law.now place erases word.now }
{
    let mut noise = SplitMix64::seed_from_u64(start_of(law.seed, place, erases));
    let inverse = u16::MAX / (2 * law.spread + 1);
    for (j, byte) in word.iter().enumerate() {
        let first = noise.next_word();
        let second = noise.next_word();
        let levels = eight_levels(law, inverse, *byte, first, second);
        levels.copy_to_slice(&mut out[8 * j..]);
    }
}

// The number from which a program makes its generator.
fn start_of(seed: u64, place: u32, erases: u32) -> u64
    ensures { result ≡ start_of_program seed place erases }
{
    seed.wrapping_add(u64::from(place) << 32)
        .wrapping_add(u64::from(erases))
}

// The levels of the eight cells of a byte, which share two words of noise.
#[inline(always)]
fn eight_levels(law: &CellLaw, inverse: u16, byte: u8, first: u64, second: u64) -> i16x8
    requires law { IsCellLaw law.now }
    requires inverse { inverse ≡ 65535 / (2 * law.now.spread + 1) }
    ensures { result ≡ quad_levels law.now byte first ++ quad_levels law.now (byte / 16) second }
{
    let noise = remainders(drawn_from(first, second), 2 * law.spread + 1, inverse);
    let spread = law.spread as i16;
    lowest_levels(byte, law.erased - spread, law.programmed - spread) + noise.cast::<i16>()
}

// The 16 bits that each of eight cells takes from two words of noise.
#[inline(always)]
fn drawn_from(first: u64, second: u64) -> u16x8
    ensures { result ≡ parts_of first ++ parts_of second }
{
    u16x8::from_le_bytes(u64x2::from_array([first, second]).to_le_bytes())
}

// The remainders of eight numbers of 16 bits. The product with the divisor's inverse gives each quotient or one less,
// so the divisor is taken off once more where it can be.
#[inline(always)]
fn remainders(numbers: u16x8, divisor: u16, inverse: u16) -> u16x8
    requires some { 0 < divisor }
    requires small { divisor < 2 ^ 15 }
    requires inverse { inverse ≡ 65535 / divisor }
    ensures { result ≡ map (λ number. number % divisor) numbers }
{
    let products = numbers.cast::<u32>() * u32x8::splat(u32::from(inverse));
    let quotients = (products >> u32x8::splat(16)).cast::<u16>();
    let rests = numbers - quotients * u16x8::splat(divisor);
    rests.simd_min(rests - u16x8::splat(divisor))
}

// Of two levels the first where a bit of a byte is 1, and else the second.
#[inline(always)]
fn lowest_levels(byte: u8, of_one: i16, of_zero: i16) -> i16x8
    ensures { result ≡ map (λ k. if bit_at byte k == 1 then of_one else of_zero) (range_with_len 0 8) }
{
    let places = u16x8::from_array([1, 2, 4, 8, 16, 32, 64, 128]);
    (u16x8::splat(u16::from(byte)) & places)
        .simd_eq(places)
        .select(i16x8::splat(of_one), i16x8::splat(of_zero))
}

// Codes of 8 bits, lane by lane.
ghost use Rattle.std.specs.Prelude.{◌≡◌, ℕ, ◌+◌, ◌-◌, ◌*◌, ◌/◌, ◌<◌, ◌≤◌, ◌==◌, if◌then◌else◌, bit_xor, length, max, min, nat_le, slice_index_or};
ghost use Rattle.lane_layer.specs.Lanes.{HasLanes};

use std::simd::prelude::*;

/// The lanes from a place of a slice on.
#[inline(always)]
pub fn loaded<const L: usize>(s: &[u8], at: usize) -> Simd<u8, L>
    requires { at + L ≤ length s.now }
    ensures { HasLanes L result (λ k. slice_index_or s.now (at + k) 0) }
{
    Simd::from_slice(&s[at..])
}

/// The lesser of each two lanes.
#[inline(always)]
pub fn lesser<const L: usize>(a: Simd<u8, L>, b: Simd<u8, L>) -> Simd<u8, L>
    ensures { HasLanes L result (λ k. min (slice_index_or a.entry k 0) (slice_index_or b.entry k 0)) }
{
    a.simd_min(b)
}

/// The greater of each two lanes.
#[inline(always)]
pub fn greater<const L: usize>(a: Simd<u8, L>, b: Simd<u8, L>) -> Simd<u8, L>
    ensures { HasLanes L result (λ k. max (slice_index_or a.entry k 0) (slice_index_or b.entry k 0)) }
{
    a.simd_max(b)
}

/// How near the magnitude of each number is to 127, from its code.
#[inline(always)]
pub fn nearness<const L: usize>(codes: Simd<u8, L>) -> Simd<u8, L>
    requires { (k : ℕ) → k < L → slice_index_or codes k 0 ≤ 254 }
    ensures { HasLanes L result (λ k. min (slice_index_or codes.entry k 0) (254 - slice_index_or codes.entry k 0)) }
{
    lesser(codes, Simd::<u8, L>::splat(254) - codes)
}

/// The code of three quarters of each magnitude, rounded down, from how near it is to 127.
#[inline(always)]
pub fn scaled<const L: usize>(nearness: Simd<u8, L>) -> Simd<u8, L>
    requires { (k : ℕ) → k < L → slice_index_or nearness k 0 ≤ 127 }
    ensures { HasLanes L result (λ k. 127 - 3 * (127 - slice_index_or nearness.entry k 0) / 4) }
{
    nearness + ((Simd::<u8, L>::splat(130) - nearness) >> Simd::<u8, L>::splat(2))
}

/// Of each two lanes the first where the tested lanes are equal.
#[inline(always)]
pub fn chosen<const L: usize>(
    a: Simd<u8, L>,
    b: Simd<u8, L>,
    same: Simd<u8, L>,
    other: Simd<u8, L>,
) -> Simd<u8, L>
    ensures { HasLanes L result (λ k. if slice_index_or a.entry k 0 == slice_index_or b.entry k 0 then slice_index_or same.entry k 0 else slice_index_or other.entry k 0) }
{
    a.simd_eq(b).select(same, other)
}

/// The exclusive or of each two lanes.
#[inline(always)]
pub fn signs_of<const L: usize>(a: Simd<u8, L>, b: Simd<u8, L>) -> Simd<u8, L>
    ensures { HasLanes L result (λ k. bit_xor (slice_index_or a.entry k 0) (slice_index_or b.entry k 0)) }
{
    a ^ b
}

/// The codes of the numbers, each with the other sign where the top bit of its lane in `signs` is set.
#[inline(always)]
pub fn turned<const L: usize>(signs: Simd<u8, L>, codes: Simd<u8, L>) -> Simd<u8, L>
    requires { (k : ℕ) → k < L → slice_index_or codes k 0 ≤ 254 }
    ensures { HasLanes L result (λ k. if nat_le 128 (slice_index_or signs.entry k 0) then 254 - slice_index_or codes.entry k 0 else slice_index_or codes.entry k 0) }
{
    signs
        .simd_ge(Simd::splat(128))
        .select(Simd::<u8, L>::splat(254) - codes, codes)
}

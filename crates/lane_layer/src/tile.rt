// The check rows of a tile, one to a lane.
ghost use Rattle.std.specs.Prelude.{◌≡◌, ℕ, ◌+◌, ◌*◌, ◌<◌, ◌≤◌, ◌^◌, All, length};
ghost use Rattle.lane_layer.specs.Rows.{AreExtremes, TellRows};

use crate::lanes::{chosen, greater, lesser, loaded, nearness, scaled, signs_of, turned};
use std::simd::prelude::*;

/// Goes once over the edges of the tile's check rows.
fn find_extremes<const L: usize>(
    given: &[u8],
    z: usize,
    degree: usize,
    t: usize,
    nearest: &mut Simd<u8, L>,
    second: &mut Simd<u8, L>,
    signs: &mut Simd<u8, L>,
)
    requires lifting { z < 2 ^ 16 }
    requires several { 2 ≤ degree }
    requires degree { degree ≤ 128 }
    requires rows { t + L ≤ z }
    requires room { degree * z ≤ length given.now }
    requires codes { All (λ c. c ≤ 254) given.now }
    ensures { AreExtremes L given.now z t degree nearest.new second.new signs.new }
{
    *nearest = Simd::splat(0);
    *second = Simd::splat(0);
    *signs = Simd::splat(0);
    for e in 0..degree {
        let codes = loaded::<L>(given, e * z + t);
        let near = nearness(codes);
        *second = greater(*second, lesser(*nearest, near));
        *nearest = greater(*nearest, near);
        *signs = signs_of(*signs, codes);
    }
}

/// Tells each edge of the tile's check rows what its row says.
fn tell<const L: usize>(
    given: &[u8],
    z: usize,
    degree: usize,
    t: usize,
    nearest: Simd<u8, L>,
    second: Simd<u8, L>,
    signs: Simd<u8, L>,
    told: &mut [u8],
)
    requires lifting { z < 2 ^ 16 }
    requires degree { degree ≤ 128 }
    requires rows { t + L ≤ z }
    requires room { degree * z ≤ length given.now }
    requires codes { All (λ c. c ≤ 254) given.now }
    requires told_room { degree * z ≤ length told.old }
    requires extremes { AreExtremes L given.now z t degree nearest second signs }
    requires before { TellRows given.now z degree told.old t }
    ensures { TellRows given.now z degree told.new (t + L) }
{
    let least = scaled(nearest);
    let other = scaled(second);
    for e in 0..degree {
        let codes = loaded::<L>(given, e * z + t);
        let magnitude = chosen(nearness(codes), nearest, other, least);
        let answer = turned(signs_of(codes, signs), magnitude);
        answer.copy_to_slice(&mut told[e * z + t..]);
    }
}

/// Works the check rows from t on, one to a lane.
fn work_tile<const L: usize>(given: &[u8], z: usize, degree: usize, t: usize, told: &mut [u8])
    requires lifting { z < 2 ^ 16 }
    requires several { 2 ≤ degree }
    requires degree { degree ≤ 128 }
    requires rows { t + L ≤ z }
    requires room { degree * z ≤ length given.now }
    requires codes { All (λ c. c ≤ 254) given.now }
    requires told_room { degree * z ≤ length told.old }
    requires before { TellRows given.now z degree told.old t }
    ensures { TellRows given.now z degree told.new (t + L) }
{
    let mut nearest = Simd::<u8, L>::splat(0);
    let mut second = Simd::<u8, L>::splat(0);
    let mut signs = Simd::<u8, L>::splat(0);
    find_extremes(given, z, degree, t, &mut nearest, &mut second, &mut signs);
    tell(given, z, degree, t, nearest, second, signs, told);
}

/// Works tiles of L check rows from a row on, as long as there are L more. The answer is the row that comes next.
fn work_tiles<const L: usize>(
    given: &[u8],
    z: usize,
    degree: usize,
    from: usize,
    told: &mut [u8],
) -> usize
    requires lanes { 0 < L }
    requires lifting { z < 2 ^ 16 }
    requires several { 2 ≤ degree }
    requires degree { degree ≤ 128 }
    requires rows { from ≤ z }
    requires room { degree * z ≤ length given.now }
    requires codes { All (λ c. c ≤ 254) given.now }
    requires told_room { degree * z ≤ length told.old }
    requires before { TellRows given.now z degree told.old from }
    ensures told { TellRows given.now z degree told.new result }
    ensures within { result ≤ z }
    ensures last { z < result + L }
{
    let mut t = from;
    while z - t >= L {
        work_tile::<L>(given, z, degree, t, told);
        t += L;
    }
    t
}

/// Works all check rows: L at a time, and the rest one at a time.
pub fn work_rows<const L: usize>(given: &[u8], z: usize, degree: usize, told: &mut [u8])
    requires lanes { 0 < L }
    requires lifting { z < 2 ^ 16 }
    requires several { 2 ≤ degree }
    requires degree { degree ≤ 128 }
    requires room { degree * z ≤ length given.now }
    requires codes { All (λ c. c ≤ 254) given.now }
    requires told_room { degree * z ≤ length told.old }
    ensures { TellRows given.now z degree told.new z }
{
    let rest = work_tiles::<L>(given, z, degree, 0, told);
    work_tiles::<1>(given, z, degree, rest, told);
}

ghost use Rattle.std.specs.Prelude.{◌≡◌, ◌+◌, ◌*◌, ◌<◌, ◌≤◌, length};
ghost use Rattle.ssd_bits.specs.BitPlace.{bit_number};
ghost use Rattle.ssd_bits.specs.Runs.{AddsRun};

use super::place::{BitPlace, STEP};
use super::word::{word_at, xor_word};

// Adds a run of bits that stands in eight bytes of each list.
fn xor_step(dst: &mut [u8], to: BitPlace, src: &[u8], from: BitPlace, n: usize)
    requires some { 0 < n }
    requires to_room { to.byte + 8 ≤ length dst.old }
    requires from_room { from.byte + 8 ≤ length src.now }
    requires to_bits { to.bit + n ≤ 64 }
    requires from_bits { from.bit + n ≤ 64 }
    ensures { AddsRun dst.old dst.new (bit_number to) src.now (bit_number from) n }
{
    let bits = (word_at(src, from.byte) >> from.bit) & (u64::MAX >> (64 - n));
    xor_word(dst, to.byte, bits << to.bit);
}

// Adds a run bit by bit, where a list has no eight bytes.
fn xor_bits(dst: &mut [u8], to: BitPlace, src: &[u8], from: BitPlace, n: usize)
    requires short { n ≤ 64 }
    requires to_low { to.bit < 8 }
    requires from_low { from.bit < 8 }
    requires to_room { bit_number to + n ≤ 8 * length dst.old }
    requires from_room { bit_number from + n ≤ 8 * length src.now }
    ensures { AddsRun dst.old dst.new (bit_number to) src.now (bit_number from) n }
{
    for r in 0..n {
        let bit = to.bit + r;
        let source = from.bit + r;
        let one = (src[from.byte + source / 8] >> (source % 8)) & 1;
        dst[to.byte + bit / 8] ^= one << (bit % 8);
    }
}

// Adds a run of at most a step.
fn xor_end(dst: &mut [u8], to: BitPlace, src: &[u8], from: BitPlace, n: usize)
    requires some { 0 < n }
    requires short { n ≤ STEP }
    requires to_low { to.bit < 8 }
    requires from_low { from.bit < 8 }
    requires to_room { bit_number to + n ≤ 8 * length dst.old }
    requires from_room { bit_number from + n ≤ 8 * length src.now }
    ensures { AddsRun dst.old dst.new (bit_number to) src.now (bit_number from) n }
{
    if dst.len() < 8 || src.len() < 8 {
        xor_bits(dst, to, src, from, n);
    } else {
        let to = to.within(dst.len());
        let from = from.within(src.len());
        xor_step(dst, to, src, from, n);
    }
}

// Adds a run that is too short for a step which may touch 64 bits.
pub fn xor_rest(dst: &mut [u8], to: BitPlace, src: &[u8], from: BitPlace, n: usize)
    requires short { n < 64 }
    requires to_low { to.bit < 8 }
    requires from_low { from.bit < 8 }
    requires to_room { bit_number to + n ≤ 8 * length dst.old }
    requires from_room { bit_number from + n ≤ 8 * length src.now }
    ensures { AddsRun dst.old dst.new (bit_number to) src.now (bit_number from) n }
{
    if n == 0 {
        return;
    }
    if n <= STEP {
        xor_end(dst, to, src, from, n);
    } else {
        xor_end(dst, to, src, from, STEP);
        xor_end(dst, to.next(), src, from.next(), n - STEP);
    }
}

// Adds a run of any length.
pub fn xor_run(dst: &mut [u8], mut to: BitPlace, src: &[u8], mut from: BitPlace, n: usize)
    requires to_low { to.bit < 8 }
    requires from_low { from.bit < 8 }
    requires to_room { bit_number to + n ≤ 8 * length dst.old }
    requires from_room { bit_number from + n ≤ 8 * length src.now }
    ensures { AddsRun dst.old dst.new (bit_number to) src.now (bit_number from) n }
{
    let mut left = n;
    while left >= 64 {
        xor_step(dst, to, src, from, STEP);
        to = to.next();
        from = from.next();
        left -= STEP;
    }
    xor_rest(dst, to, src, from, left);
}

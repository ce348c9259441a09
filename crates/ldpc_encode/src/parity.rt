ghost use Rattle.std.specs.Prelude.{◌≡◌, ◌+◌, ◌*◌, ◌%◌, ◌<◌, ◌≤◌, ◌^◌, cond, false, length};
ghost use Rattle.ssd_geo.specs.Bits.{bit_of, bit_sum};
ghost use Rattle.ssd_bits.specs.Runs.{AddsBits};

use ssd_bits::rotate_xor_into;

// Adds the first parity block turned, and where asked the block itself, to a block of z bits.
pub fn add_first(out: &mut [u8], at: usize, first: &[u8], z: usize, shift: usize, straight: bool)
    requires turned { shift < z }
    requires room { at + z ≤ 8 * length out.old }
    requires first_room { z ≤ 8 * length first.now }
    ensures { AddsBits out.old out.new at z
        (λ r. bit_sum (bit_of first.now ((r + shift) % z)) (cond straight (bit_of first.now r) false)) }
{
    rotate_xor_into(out, at, first, 0, z, shift);
    if straight {
        rotate_xor_into(out, at, first, 0, z, 0);
    }
}

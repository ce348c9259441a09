ghost use Rattle.std.specs.Prelude.{◌+◌, ◌*◌, ◌<◌, ◌≤◌, length};
ghost use Rattle.ssd_bits.specs.Runs.{AddsRotated};

use super::place::BitPlace;
use super::run::xor_run;

/// Adds a block of `z` bits, turned by a shift. Bit `dst_at + r` is added bit `src_at + (r + shift) mod z` of `src`.
pub fn rotate_xor_into(
    dst: &mut [u8],
    dst_at: usize,
    src: &[u8],
    src_at: usize,
    z: usize,
    shift: usize,
)
    requires turned { shift < z }
    requires dst_room { dst_at + z ≤ 8 * length dst.old }
    requires src_room { src_at + z ≤ 8 * length src.now }
    ensures { AddsRotated dst.old dst.new dst_at src.now src_at z shift }
{
    // A turned block is two straight runs: from the shift on, and what stands before it.
    let first = z - shift;
    xor_run(
        dst,
        BitPlace::after(dst_at, 0),
        src,
        BitPlace::after(src_at, shift),
        first,
    );
    xor_run(
        dst,
        BitPlace::after(dst_at, first),
        src,
        BitPlace::after(src_at, 0),
        shift,
    );
}

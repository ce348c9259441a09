ghost use Rattle.std.specs.Prelude.{◌+◌, ◌*◌, ◌<◌, ◌≤◌, length};

use ssd_bits::{get, rotate_xor_into, weight, xor_into};

// Bit by bit: bit `dst_at + r` is added bit `src_at + (r + shift) mod z`.
fn rotate_by_bits(dst: &mut [u8], dst_at: usize, src: &[u8], src_at: usize, z: usize, shift: usize)
    requires block { 0 < z }
    requires small { z + shift < 4096 }
    requires dst_room { dst_at + z ≤ 8 * length dst.old }
    requires src_room { src_at + z ≤ 8 * length src.now }
    requires dst_small { length dst.old < 4096 }
    requires src_small { length src.now < 4096 }
{
    for r in 0..z {
        let from = src_at + (r + shift) % z;
        let to = dst_at + r;
        let bit = (src[from / 8] >> (from % 8)) & 1;
        dst[to / 8] ^= bit << (to % 8);
    }
}

// Whether both bodies leave the same bytes.
fn agree(dst_at: usize, src_at: usize, z: usize, shift: usize) -> bool
    requires turned { shift < z }
    requires dst_room { dst_at + z ≤ 1536 }
    requires src_room { src_at + z ≤ 1536 }
{
    let mut src = [0u8; 192];
    let mut state = 12345u32;
    for byte in src.iter_mut() {
        state = state.wrapping_mul(1664525).wrapping_add(1013904223);
        *byte = (state >> 24) as u8;
    }
    let mut fast = [0b0110_1001u8; 192];
    let mut plain = fast;
    rotate_xor_into(&mut fast, dst_at, &src, src_at, z, shift);
    rotate_by_bits(&mut plain, dst_at, &src, src_at, z, shift);
    fast == plain
}

#[test]
fn words_agree_with_bits_at_all_alignments(rt: HostRuntime) {
    for z in [4, 63, 64, 384] {
        for dst_at in 0..64 {
            for src_at in 0..64 {
                let shift = (5 * dst_at + 3 * src_at) % z;
                assert!(rt; agree(dst_at, src_at, z, shift), "{z} {dst_at} {src_at}");
            }
        }
    }
    // The last bits of the lists, where no eight bytes follow.
    for shift in 0..512 {
        assert!(rt; agree(1024, 1024, 512, shift), "{shift} at the end");
    }
}

#[test]
fn bits_stand_lowest_first(rt: HostRuntime) {
    let bytes = [0b0000_0101, 0b1000_0000];
    for (i, want) in [
        (0, true),
        (1, false),
        (2, true),
        (7, false),
        (8, false),
        (15, true),
    ] {
        assert_eq!(rt; get(&bytes, i), want, "bit {i}");
    }
    assert_eq!(rt; weight(&bytes), 3);
    assert_eq!(rt; weight(&[0xff, 0, 0, 0, 0, 0, 0, 1, 0x80, 3]), 12);
}

#[test]
fn sums_bit_by_bit(rt: HostRuntime) {
    let mut sum = [0x0f, 0xff, 1, 2, 3, 4, 5, 6, 7, 8, 9];
    xor_into(&mut sum, &[0xf0, 0xff, 1, 1, 1, 1, 1, 1, 1, 1, 1]);
    assert_eq!(rt; sum, [0xff, 0, 0, 3, 2, 5, 4, 7, 6, 9, 8]);
}

#[test]
fn small_block_turns(rt: HostRuntime) {
    let mut sum = [0b1010_0000];
    rotate_xor_into(&mut sum, 2, &[0b0000_1101], 0, 4, 1);
    assert_eq!(rt; sum, [0b1001_1000]);
}

use soft_sense::{hard_values, soft_values};

#[test]
fn a_0_is_positive_and_the_lowest_bit_is_first(rt: HostRuntime) {
    let mut out = [0; 16];
    hard_values(&[0x05, 0x80], &mut out);
    assert_eq!(rt;
        out,
        [
            -32, 32, -32, 32, 32, 32, 32, 32, 32, 32, 32, 32, 32, 32, 32, -32
        ]
    );
}

// Cells at -100, 5, 20, -15, -5, -20, 10 and 19, sensed at -20, -10, 0, 10 and 20. A sense gives 1 exactly below its
// level.
#[test]
fn a_cell_is_surer_the_further_it_is_from_the_levels(rt: HostRuntime) {
    let mut out = [0; 8];
    soft_values(&[0x01, 0x29, 0x39, 0x3b, 0xfb], 1, &mut out);
    assert_eq!(rt; out, [-96, 16, 96, -48, -16, -48, 48, 48]);
}

// Cell p of 32 has bit k of p in sense k, so each pattern of five bits stands once.
#[test]
fn each_pattern_of_five_bits_has_its_value(rt: HostRuntime) {
    let mut out = [0; 32];
    let five = [
        0xaa, 0xaa, 0xaa, 0xaa, 0xcc, 0xcc, 0xcc, 0xcc, 0xf0, 0xf0, 0xf0, 0xf0, 0x00, 0xff, 0x00,
        0xff, 0x00, 0x00, 0xff, 0xff,
    ];
    soft_values(&five, 4, &mut out);
    assert_eq!(rt;
        out,
        [
            96, 48, 48, 16, 48, 16, 16, -16, 48, 16, 16, -16, 16, -16, -16, -48, 48, 16, 16, -16,
            16, -16, -16, -48, 16, -16, -16, -48, -16, -48, -48, -96
        ]
    );
}

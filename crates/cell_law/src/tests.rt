use super::*;
use ssd_geo::CellLaw;
use std::test::Fail;

// The levels were worked out outside the program, from the rule.
#[test]
fn fresh_levels_have_the_noise_of_their_program(rt: HostRuntime) {
    let law = CellLaw {
        erased: -100,
        programmed: 100,
        spread: 3,
        seed: 0,
    };
    let mut out = [0; 8];
    fresh_into(&law, 0, 0, &[0x05], &mut out);
    assert_eq!(rt; out, [-102, 100, -102, 102, 101, 100, 100, 97]);
    let law = CellLaw {
        erased: -60,
        programmed: 60,
        spread: 44,
        seed: u64::MAX,
    };
    let mut out = [0; 16];
    fresh_into(&law, 77, 3, &[0xa0, 0x01], &mut out);
    assert_eq!(rt;
        out,
        [
            58, 92, 83, 67, 93, -74, 63, -99, -75, 90, 78, 53, 81, 20, 38, 25
        ]
    );
    let law = CellLaw {
        erased: -100,
        programmed: 100,
        spread: 0,
        seed: 1,
    };
    let mut out = [0; 8];
    fresh_into(&law, 5, 9, &[0x05], &mut out);
    assert_eq!(rt; out, [-100, 100, -100, 100, 100, 100, 100, 100]);
}

#[test]
fn ageing_stops_at_the_erased_level(rt: HostRuntime) {
    for (level, amount, want) in [
        (100, 150, -50),
        (100, 199, -99),
        (100, 200, -100),
        (100, 16_383, -100),
        (-100, 5, -100),
        (-120, 5, -120),
        (i16::MIN, u16::MAX, i16::MIN),
    ] {
        assert_eq!(rt; age_cell(level, -100, amount), want, "{level} by {amount}");
    }
}

#[test]
fn a_sense_reads_1_below_its_level(rt: HostRuntime) {
    let levels = [
        -100, 100, -100, 100, 0, -1, 1, 100, 4, 4, 5, 5, 6, 6, 7, -32_768,
    ];
    for (level, low, high) in [
        (0, 0x25, 0x80),
        (1, 0x35, 0x80),
        (5, 0x75, 0x83),
        (101, 0xff, 0xff),
        (-100, 0, 0x80),
    ] {
        let mut out = [0; 2];
        sense_into(&levels, level, &mut out);
        assert_eq!(rt; out, [low, high], "at {level}");
    }
}

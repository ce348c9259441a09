use minsum_layer::{layer_serial, row_update};

#[test]
fn each_edge_is_told_three_quarters_of_the_least_other(rt: HostRuntime) {
    let mut out = [0i8; 3];
    row_update(&[10, -4, 7], &mut out);
    assert_eq!(rt; out, [-3, 5, -3]);
}

#[test]
fn zero_is_positive(rt: HostRuntime) {
    let mut out = [0i8; 2];
    row_update(&[0, -5], &mut out);
    assert_eq!(rt; out, [-3, 0]);
}

#[test]
fn the_greatest_answer_is_95(rt: HostRuntime) {
    let mut out = [0i8; 2];
    row_update(&[127, 127], &mut out);
    assert_eq!(rt; out, [95, 95]);
}

#[test]
fn a_layer_leaves_its_numbers(rt: HostRuntime) {
    let mut p = [222i16, -222, 127, -1, 0, 5, -7, 100, -222, 222, 3, 90];
    let mut r = [95i8, -95, 0, 10, 95, -95, 0, 10, 95, -95, 0, 10];
    layer_serial(&[(0, 1), (1, 0), (2, 3)], 4, &mut p, &mut r);
    assert_eq!(rt; p, [122, -124, 52, -6, -92, 5, -7, 85, -52, 127, 60, 66]);
    assert_eq!(rt; r, [3, -75, -5, -5, 3, -95, 0, -5, 71, 75, 0, 67]);
}

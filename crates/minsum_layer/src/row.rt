ghost use Rattle.std.specs.Prelude.{◌≡◌, ℕ, ◌*◌, ◌/◌, ◌<◌, ◌≤◌, ◌==◌, if◌then◌else◌, All, length, pos, remove, slice_index_or, unsigned_abs};
ghost use Rattle.ssd_geo.specs.RowRule.{IsWithin, differ, is_negative, is_product_negative, least_magnitude, row_rule, signed};

/// What a row's edges share: its two least magnitudes and the product of its signs.
#[derive(Drop)]
struct Extremes {
    least: u8,
    second: u8,
    negative: bool,
    ghost in_range: { least ≤ 127 },
    ghost second_in_range: { second ≤ 127 },
}

/// Goes once over the row.
fn extremes_of(q: &[i8]) -> Extremes
    requires several { 2 ≤ length q.now }
    requires values { All (IsWithin 127) q.now }
    ensures least_of_others { (i : ℕ) → i < length q.now → least_magnitude (remove q.now i)
        ≡ (if unsigned_abs (slice_index_or q.now i (pos 0)) == result.least
        then result.second
        else result.least) }
    ensures negative { result.negative ≡ is_product_negative q.now }
{
    let mut least = 127u8;
    let mut second = 127u8;
    let mut negative = false;
    for x in q {
        let magnitude = x.unsigned_abs();
        second = second.min(least.max(magnitude));
        least = least.min(magnitude);
        negative = negative != (*x < 0);
    }
    Extremes {
        least,
        second,
        negative,
    }
}

/// Three quarters of a magnitude, rounded down.
fn scaled(magnitude: u8) -> i8
    requires { magnitude ≤ 127 }
    ensures value { result ≡ pos (3 * magnitude / 4) }
    ensures bound { 3 * magnitude / 4 ≤ 95 }
{
    (u16::from(magnitude) * 3 / 4) as i8
}

/// What the row tells the edge that gave it the value x.
fn told(x: i8, row: &Extremes) -> i8
    requires { IsWithin 127 x }
    ensures { result
        ≡ signed (differ (is_negative x) row.now.negative) (3 * (if unsigned_abs x == row.now.least then row.now.second else row.now.least) / 4) }
{
    let least_other = if x.unsigned_abs() == row.least {
        row.second
    } else {
        row.least
    };
    let magnitude = scaled(least_other);
    if (x < 0) != row.negative {
        -magnitude
    } else {
        magnitude
    }
}

/// Writes what a check row tells each edge, from the values that it is given on its edges.
pub fn row_update(q: &[i8], r_out: &mut [i8])
    requires lengths { length r_out.old ≡ length q.now }
    requires at_least { 2 ≤ length q.now }
    requires at_most { length q.now ≤ 128 }
    requires values { All (IsWithin 127) q.now }
    ensures { r_out.new ≡ row_rule q.now }
{
    let row = extremes_of(q);
    for (i, x) in q.iter().enumerate() {
        r_out[i] = told(*x, &row);
    }
}

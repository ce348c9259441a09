// Runs of neighbouring variables and edges, between the numbers of a layer and their codes.
ghost use Rattle.std.specs.Prelude.{◌≡◌, ℕ, ◌+◌, ◌<◌, ◌≤◌, ◌⊎◌, ◌+ℤ◌, ◌-ℤ◌, All, length, pos, slice_index_or};
ghost use Rattle.lane_layer.specs.Rows.{IsToldCode, number_of};
ghost use Rattle.ssd_geo.specs.Decoding.{clamped};
ghost use Rattle.ssd_geo.specs.RowRule.{IsWithin};

/// The code of what an edge is given.
#[inline(always)]
fn code_of(variable: i16, edge: i8) -> u8
    requires variable { IsWithin 222 variable }
    requires edge { IsWithin 95 edge }
    ensures { number_of result ≡ clamped (variable -ℤ edge) }
{
    (127 + i16::from(edge) - variable).clamp(0, 254) as u8
}

/// The number that a row may tell.
#[inline(always)]
fn answer_of(code: u8) -> i8
    requires { IsToldCode code }
    ensures { result ≡ number_of code }
{
    (127 - i16::from(code)) as i8
}

/// The sum of two numbers, from their codes.
#[inline(always)]
fn sum_of(given: u8, told: u8) -> i16
    ensures { result ≡ number_of given +ℤ number_of told }
{
    254 - (i16::from(given) + i16::from(told))
}

/// Writes the codes of what is given on a run of edges.
pub fn give(p: &[i16], variable: usize, r: &[i8], edge: usize, count: usize, given: &mut [u8])
    requires variables { variable + count ≤ length p.now }
    requires edges { edge + count ≤ length r.now }
    requires room { edge + count ≤ length given.old }
    requires p_within { All (IsWithin 222) p.now }
    requires r_within { All (IsWithin 95) r.now }
    ensures given { (i : ℕ) → i < count → number_of (slice_index_or given.new (edge + i) 0)
        ≡ clamped (slice_index_or p.now (variable + i) (pos 0) -ℤ slice_index_or r.now (edge + i) (pos 0)) }
    ensures before { (k : ℕ) → k < edge → slice_index_or given.new k 0 ≡ slice_index_or given.old k 0 }
{
    for i in 0..count {
        given[edge + i] = code_of(p[variable + i], r[edge + i]);
    }
}

/// Writes what is left on a run of edges, and at their variables.
pub fn leave(
    given: &[u8],
    told: &[u8],
    edge: usize,
    count: usize,
    p: &mut [i16],
    variable: usize,
    r: &mut [i8],
)
    requires variables { variable + count ≤ length p.old }
    requires edges { edge + count ≤ length r.old }
    requires given_room { edge + count ≤ length given.now }
    requires told_room { edge + count ≤ length told.now }
    requires codes { (i : ℕ) → i < count → IsToldCode (slice_index_or told.now (edge + i) 0) }
    ensures variables { (i : ℕ) → i < count → slice_index_or p.new (variable + i) (pos 0)
        ≡ number_of (slice_index_or given.now (edge + i) 0) +ℤ number_of (slice_index_or told.now (edge + i) 0) }
    ensures others { (k : ℕ) → (k < variable) ⊎ (variable + count ≤ k) → slice_index_or p.new k (pos 0) ≡ slice_index_or p.old k (pos 0) }
    ensures edges { (i : ℕ) → i < count → slice_index_or r.new (edge + i) (pos 0) ≡ number_of (slice_index_or told.now (edge + i) 0) }
    ensures before { (k : ℕ) → k < edge → slice_index_or r.new k (pos 0) ≡ slice_index_or r.old k (pos 0) }
{
    for i in 0..count {
        p[variable + i] = sum_of(given[edge + i], told[edge + i]);
        r[edge + i] = answer_of(told[edge + i]);
    }
}

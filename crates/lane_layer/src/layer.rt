ghost use Rattle.std.specs.Prelude.{◌≡◌, ◌≢◌, ℕ, ◌+◌, ◌*◌, ◌<◌, ◌≤◌, ◌⊎◌, ◌^◌, ◌+ℤ◌, ◌-ℤ◌, All, length, pos, slice_index_or};
ghost use Rattle.lane_layer.specs.Rows.{IsToldCode, TellRows, number_of, row_of};
ghost use Rattle.lane_layer.specs.WorkSize.{IsLaneCount};
ghost use Rattle.ssd_geo.specs.Decoding.{clamped, edges_of, given_of, layer_worked, picked};
ghost use Rattle.ssd_geo.specs.Layer.{variable_of, variables_of};
ghost use Rattle.ssd_geo.specs.LayerNumbers.{AreNumbersOf, IsLayer};
ghost use Rattle.ssd_geo.specs.RowRule.{IsWithin};

use crate::LaneWork;
use crate::runs::{give, leave};
use crate::tile::work_rows;

/// Writes the codes of what is given on the edges of a block, which begin at `edge`.
fn give_block(block: (u16, u16), z: usize, p: &[i16], r: &[i8], edge: usize, given: &mut [u8])
    requires shift { block.1 < z }
    requires column { (block.0 + 1) * z ≤ length p.now }
    requires edges { edge + z ≤ length r.now }
    requires room { edge + z ≤ length given.old }
    requires p_within { All (IsWithin 222) p.now }
    requires r_within { All (IsWithin 95) r.now }
    ensures given { (u : ℕ) → u < z → number_of (slice_index_or given.new (edge + u) 0)
        ≡ clamped (slice_index_or p.now (variable_of z u block) (pos 0) -ℤ slice_index_or r.now (edge + u) (pos 0)) }
    ensures before { (k : ℕ) → k < edge → slice_index_or given.new k 0 ≡ slice_index_or given.old k 0 }
{
    let first = usize::from(block.0) * z;
    let shift = usize::from(block.1);
    // The rows up to the column's end, and then those that begin at its front again.
    let rows = z - shift;
    give(p, first + shift, r, edge, rows, given);
    give(p, first, r, edge + rows, shift, given);
}

/// Writes what is left on the edges of a block, which begin at `edge`, and at its variables.
fn leave_block(
    block: (u16, u16),
    z: usize,
    given: &[u8],
    told: &[u8],
    edge: usize,
    p: &mut [i16],
    r: &mut [i8],
)
    requires shift { block.1 < z }
    requires column { (block.0 + 1) * z ≤ length p.old }
    requires edges { edge + z ≤ length r.old }
    requires given_room { edge + z ≤ length given.now }
    requires told_room { edge + z ≤ length told.now }
    requires codes { (u : ℕ) → u < z → IsToldCode (slice_index_or told.now (edge + u) 0) }
    ensures variables { (u : ℕ) → u < z → slice_index_or p.new (variable_of z u block) (pos 0)
        ≡ number_of (slice_index_or given.now (edge + u) 0) +ℤ number_of (slice_index_or told.now (edge + u) 0) }
    ensures others { (k : ℕ) → (k < block.0 * z) ⊎ (block.0 * z + z ≤ k) → slice_index_or p.new k (pos 0) ≡ slice_index_or p.old k (pos 0) }
    ensures edges { (u : ℕ) → u < z → slice_index_or r.new (edge + u) (pos 0) ≡ number_of (slice_index_or told.now (edge + u) 0) }
    ensures before { (k : ℕ) → k < edge → slice_index_or r.new k (pos 0) ≡ slice_index_or r.old k (pos 0) }
{
    let first = usize::from(block.0) * z;
    let shift = usize::from(block.1);
    let rows = z - shift;
    leave(given, told, edge, rows, p, first + shift, r);
    leave(given, told, edge + rows, shift, p, first, r);
}

/// Writes the codes of what is given on all edges of the layer.
fn give_layer(layer: &[(u16, u16)], z: usize, p: &[i16], r: &[i8], given: &mut [u8])
    requires lifting { z < 2 ^ 16 }
    requires blocks { IsLayer z layer.now }
    requires numbers { AreNumbersOf z layer.now p.now r.now }
    requires room { length given.old ≡ length layer.now * z }
    ensures rows { (u : ℕ) → u < z → row_of given.new z u (length layer.now)
        ≡ given_of (picked p.now (variables_of layer.now z u)) (picked r.now (edges_of (length layer.now) z u)) }
    ensures codes { All (λ c. c ≤ 254) given.new }
{
    for (e, block) in layer.iter().enumerate() {
        give_block(*block, z, p, r, e * z, given);
    }
}

/// Writes what is left on all edges of the layer, and at their variables.
fn leave_layer(
    layer: &[(u16, u16)],
    z: usize,
    given: &[u8],
    told: &[u8],
    p: &mut [i16],
    r: &mut [i8],
)
    requires lifting { z < 2 ^ 16 }
    requires blocks { IsLayer z layer.now }
    requires numbers { AreNumbersOf z layer.now p.old r.old }
    requires given_room { length given.now ≡ length layer.now * z }
    requires told_room { length told.now ≡ length layer.now * z }
    requires codes { All (λ c. c ≤ 254) given.now }
    requires told { TellRows given.now z (length layer.now) told.now z }
    ensures variables { (e u : ℕ) → e < length layer.now → u < z → slice_index_or p.new (variable_of z u (slice_index_or layer.now e (0, 0))) (pos 0)
        ≡ number_of (slice_index_or given.now (e * z + u) 0) +ℤ number_of (slice_index_or told.now (e * z + u) 0) }
    ensures others { (k : ℕ) → ((e u : ℕ) → e < length layer.now → u < z → variable_of z u (slice_index_or layer.now e (0, 0)) ≢ k)
        → slice_index_or p.new k (pos 0) ≡ slice_index_or p.old k (pos 0) }
    ensures edges { (e u : ℕ) → e < length layer.now → u < z → slice_index_or r.new (e * z + u) (pos 0) ≡ number_of (slice_index_or told.now (e * z + u) 0) }
{
    for (e, block) in layer.iter().enumerate() {
        leave_block(*block, z, given, told, e * z, p, r);
    }
}

/// Works the check rows of a layer, L at a time. Two slices with room for the layer's edges hold what they are given and what
/// they are told.
fn work_layer<const L: usize>(
    layer: &[(u16, u16)],
    z: usize,
    p: &mut [i16],
    r: &mut [i8],
    given: &mut [u8],
    told: &mut [u8],
)
    requires lanes { 0 < L }
    requires lifting { z < 2 ^ 16 }
    requires blocks { IsLayer z layer.now }
    requires numbers { AreNumbersOf z layer.now p.old r.old }
    requires given_room { length layer.now * z ≤ length given.old }
    requires told_room { length layer.now * z ≤ length told.old }
    ensures { (p.new, r.new) ≡ layer_worked layer.now z (p.old, r.old) }
{
    let codes = layer.len() * z;
    let given = &mut given[..codes];
    let told = &mut told[..codes];
    give_layer(layer, z, p, r, given);
    work_rows::<L>(given, z, layer.len(), told);
    leave_layer(layer, z, given, told, p, r);
}

/// Works the check rows of a layer, L at a time. The edge of block e and row t is `r[e * z + t]`.
pub fn layer_lanes<const L: usize>(
    layer: &[(u16, u16)],
    z: u16,
    p: &mut [i16],
    r: &mut [i8],
    work: &mut LaneWork,
)
    requires lanes { IsLaneCount L }
    requires blocks { IsLayer z layer.now }
    requires numbers { AreNumbersOf z layer.now p.old r.old }
    requires lifting { work.old.z ≡ z }
    requires degree { length layer.now ≤ work.old.degree }
    ensures worked { (p.new, r.new) ≡ layer_worked layer.now z (p.old, r.old) }
    ensures variable_bound { All (IsWithin 222) p.new }
    ensures edge_bound { All (IsWithin 95) r.new }
    ensures same { work.new ≡ work.old }
{
    work_layer::<L>(
        layer,
        usize::from(z),
        p,
        r,
        work.given.as_mut_slice(),
        work.told.as_mut_slice(),
    );
}

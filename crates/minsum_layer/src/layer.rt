ghost use Rattle.std.specs.Prelude.{◌≡◌, ℕ, ◌+◌, ◌*◌, ◌<◌, ◌≤◌, ◌^◌, All, length};
ghost use Rattle.ssd_geo.specs.Decoding.{edges_of, given_of, layer_worked, picked, placed, row_worked, sums_of};
ghost use Rattle.ssd_geo.specs.Layer.{variable_of, variables_of};
ghost use Rattle.ssd_geo.specs.LayerNumbers.{AreNumbersOf, IsLayer};
ghost use Rattle.ssd_geo.specs.RowRule.{IsWithin, row_rule};

use crate::row_update;

/// The most blocks that a layer may have.
const MOST_BLOCKS: usize = 128;

/// The variable that check row t has in a block.
fn variable_at(block: (u16, u16), z: usize, t: usize) -> usize
    requires lifting { z < 2 ^ 16 }
    requires row { t < z }
    requires shift { block.1 < z }
    ensures { result ≡ variable_of z t block }
{
    let (column, shift) = block;
    let turned = t + usize::from(shift);
    let place = if turned < z { turned } else { turned - z };
    usize::from(column) * z + place
}

/// Writes what check row t is given on each edge.
fn gather(layer: &[(u16, u16)], z: usize, t: usize, p: &[i16], r: &[i8], given: &mut [i8])
    requires lifting { z < 2 ^ 16 }
    requires row { t < z }
    requires blocks { IsLayer z layer.now }
    requires numbers { AreNumbersOf z layer.now p.now r.now }
    requires room { length given.old ≡ length layer.now }
    ensures { given.new
        ≡ given_of (picked p.now (variables_of layer.now z t)) (picked r.now (edges_of (length layer.now) z t)) }
{
    for (e, block) in layer.iter().enumerate() {
        let variable = variable_at(*block, z, t);
        let value = p[variable] - i16::from(r[e * z + t]);
        given[e] = value.clamp(-127, 127) as i8;
    }
}

/// Writes what check row t leaves: the new numbers of its variables and of its edges.
fn scatter(
    layer: &[(u16, u16)],
    z: usize,
    t: usize,
    given: &[i8],
    told: &[i8],
    p: &mut [i16],
    r: &mut [i8],
)
    requires lifting { z < 2 ^ 16 }
    requires row { t < z }
    requires blocks { IsLayer z layer.now }
    requires numbers { AreNumbersOf z layer.now p.old r.old }
    requires given_len { length given.now ≡ length layer.now }
    requires told_len { length told.now ≡ length layer.now }
    ensures variables { p.new ≡ placed p.old (variables_of layer.now z t) (sums_of given.now told.now) }
    ensures edges { r.new ≡ placed r.old (edges_of (length layer.now) z t) told.now }
{
    for (e, block) in layer.iter().enumerate() {
        let variable = variable_at(*block, z, t);
        p[variable] = i16::from(given[e]) + i16::from(told[e]);
        r[e * z + t] = told[e];
    }
}

/// Works check row t. Two slices as long as the layer hold what it is given and what it tells.
fn work_row(
    layer: &[(u16, u16)],
    z: usize,
    t: usize,
    given: &mut [i8],
    told: &mut [i8],
    p: &mut [i16],
    r: &mut [i8],
)
    requires lifting { z < 2 ^ 16 }
    requires row { t < z }
    requires blocks { IsLayer z layer.now }
    requires numbers { AreNumbersOf z layer.now p.old r.old }
    requires given_len { length given.old ≡ length layer.now }
    requires told_len { length told.old ≡ length layer.now }
    ensures { (p.new, r.new) ≡ row_worked layer.now z t (p.old, r.old) }
{
    gather(layer, z, t, p, r, given);
    row_update(given, told);
    scatter(layer, z, t, given, told, p, r);
}

/// Works the check rows of a layer one at a time, in rising order. The edge of block e and row t is `r[e * z + t]`.
pub fn layer_serial(layer: &[(u16, u16)], z: u16, p: &mut [i16], r: &mut [i8])
    requires blocks { IsLayer z layer.now }
    requires numbers { AreNumbersOf z layer.now p.old r.old }
    ensures worked { (p.new, r.new) ≡ layer_worked layer.now z (p.old, r.old) }
    ensures variable_bound { All (IsWithin 222) p.new }
    ensures edge_bound { All (IsWithin 95) r.new }
{
    let z = usize::from(z);
    let mut given = [0i8; MOST_BLOCKS];
    let mut told = [0i8; MOST_BLOCKS];
    let given = &mut given[..layer.len()];
    let told = &mut told[..layer.len()];
    for t in 0..z {
        work_row(layer, z, t, given, told, p, r);
    }
}

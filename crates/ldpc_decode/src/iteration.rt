ghost use Rattle.std.specs.Prelude.{◌≡◌, ◌+◌, ◌*◌, ◌<◌, ◌≤◌, ◌^◌, All, length};
ghost use Rattle.lane_layer.specs.WorkSize.{IsLaneCount};
ghost use Rattle.ldpc_decode.specs.View.{work_size};
ghost use Rattle.ssd_geo.specs.BaseMatrix.{IsAccepted, layer_of};
ghost use Rattle.ssd_geo.specs.Decoding.{edge_count, iterated, layer_worked, layers_of};
ghost use Rattle.ssd_geo.specs.RowRule.{IsWithin};

use crate::Lanes;
use lane_layer::{LaneWork, layer_lanes};
use qc_matrix::Code;

/// How many edges base row i has.
pub fn edges_in(code: &Code, i: u8) -> usize
    requires accepted { IsAccepted code.now }
    requires row { i < code.now.mb }
    ensures value { result ≡ length (layer_of code.now i) * code.now.z }
    ensures bound { result ≤ 2 ^ 23 }
{
    code.layer(i).len() * usize::from(code.z())
}

/// How many edges the code has.
pub fn edge_total(code: &Code) -> usize
    requires { IsAccepted code.now }
    ensures { result ≡ edge_count (layers_of code.now) code.now.z }
{
    let mut total = 0usize;
    for i in 0..code.mb() {
        total += edges_in(code, i);
    }
    total
}

/// Works the layer of base row i, whose edges are `r`, L check rows at a time.
fn work_layer_by<const L: usize>(
    code: &Code,
    i: u8,
    p: &mut [i16],
    r: &mut [i8],
    work: &mut LaneWork,
)
    requires lanes { IsLaneCount L }
    requires accepted { IsAccepted code.now }
    requires row { i < code.now.mb }
    requires variables { length p.old ≡ code.now.nb * code.now.z }
    requires edges { length r.old ≡ length (layer_of code.now i) * code.now.z }
    requires p_within { All (IsWithin 222) p.old }
    requires r_within { All (IsWithin 95) r.old }
    requires size { work.old ≡ work_size code.now }
    ensures worked { (p.new, r.new) ≡ layer_worked (layer_of code.now i) code.now.z (p.old, r.old) }
    ensures p_within { All (IsWithin 222) p.new }
    ensures r_within { All (IsWithin 95) r.new }
    ensures same { work.new ≡ work.old }
{
    layer_lanes::<L>(code.layer(i), code.z(), p, r, work);
}

/// Works the layer of base row i, whose edges are `r`.
fn work_layer(code: &Code, i: u8, lanes: Lanes, p: &mut [i16], r: &mut [i8], work: &mut LaneWork)
    requires accepted { IsAccepted code.now }
    requires row { i < code.now.mb }
    requires variables { length p.old ≡ code.now.nb * code.now.z }
    requires edges { length r.old ≡ length (layer_of code.now i) * code.now.z }
    requires p_within { All (IsWithin 222) p.old }
    requires r_within { All (IsWithin 95) r.old }
    requires size { work.old ≡ work_size code.now }
    ensures worked { (p.new, r.new) ≡ layer_worked (layer_of code.now i) code.now.z (p.old, r.old) }
    ensures p_within { All (IsWithin 222) p.new }
    ensures r_within { All (IsWithin 95) r.new }
    ensures same { work.new ≡ work.old }
{
    match lanes {
        Lanes::One => work_layer_by::<1>(code, i, p, r, work),
        Lanes::Four => work_layer_by::<4>(code, i, p, r, work),
        Lanes::Eight => work_layer_by::<8>(code, i, p, r, work),
        Lanes::Sixteen => work_layer_by::<16>(code, i, p, r, work),
        Lanes::ThirtyTwo => work_layer_by::<32>(code, i, p, r, work),
    }
}

/// Works each layer once, in the order of the base rows, and counts the iteration.
pub fn iterate(
    code: &Code,
    lanes: Lanes,
    p: &mut [i16],
    r: &mut [i8],
    work: &mut LaneWork,
    done: &mut u8,
)
    requires accepted { IsAccepted code.now }
    requires variables { length p.old ≡ code.now.nb * code.now.z }
    requires edges { length r.old ≡ edge_count (layers_of code.now) code.now.z }
    requires p_within { All (IsWithin 222) p.old }
    requires r_within { All (IsWithin 95) r.old }
    requires size { work.old ≡ work_size code.now }
    requires countable { done.old < 255 }
    ensures worked { (p.new, r.new) ≡ iterated (layers_of code.now) code.now.z (p.old, r.old) }
    ensures counted { done.new ≡ done.old + 1 }
    ensures p_within { All (IsWithin 222) p.new }
    ensures r_within { All (IsWithin 95) r.new }
    ensures same { work.new ≡ work.old }
{
    let mut from = 0usize;
    for i in 0..code.mb() {
        let to = from + edges_in(code, i);
        work_layer(code, i, lanes, p, &mut r[from..to], work);
        from = to;
    }
    *done += 1;
}

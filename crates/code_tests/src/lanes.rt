// Layers that are worked lane by lane, beside the same layers worked serially.
ghost use Rattle.std.specs.Prelude.{◌≡◌, ◌≤◌, All, IfOk, vec_len};
ghost use Rattle.lane_layer.specs.WorkSize.{IsLaneCount};
ghost use Rattle.ssd_geo.specs.RowRule.{IsWithin};

use lane_layer::{LaneWork, layer_lanes};
use minsum_layer::layer_serial;
use std::alloc::Global;
use std::test::Fail;

// The numbers of so many variables, spread over their range.
fn variables(alloc: Global, count: usize) -> Result<Vec<i16>, Fail>
    ensures count { IfOk result (λ p. vec_len p ≡ count) }
    ensures within { IfOk result (λ p. All (IsWithin 222) p.items) }
{
    let mut numbers = Vec::new(alloc);
    for number in 0..count {
        numbers.push(222 - (number.wrapping_mul(37) % 445) as i16)?;
    }
    Ok(numbers)
}

// Those of so many edges.
fn edges(alloc: Global, count: usize) -> Result<Vec<i8>, Fail>
    ensures count { IfOk result (λ r. vec_len r ≡ count) }
    ensures within { IfOk result (λ r. All (IsWithin 95) r.items) }
{
    let mut numbers = Vec::new(alloc);
    for number in 0..count {
        numbers.push(((number.wrapping_mul(11) % 191) as i16 - 95) as i8)?;
    }
    Ok(numbers)
}

// Works a layer of three blocks, two of which are turned, by so many lanes and serially.
fn compare<const L: usize>(alloc: Global, z: u16) -> Result<(), Fail>
    requires lanes { IsLaneCount L }
    requires least { 4 ≤ z }
    requires most { z ≤ 1024 }
{
    let layer = [(0u16, z / 2), (1, 0), (2, z - 1)];
    let count = 3 * z as usize;
    let mut p = variables(alloc, count)?;
    let mut r = edges(alloc, count)?;
    let mut p_of_lanes = variables(alloc, count)?;
    let mut r_of_lanes = edges(alloc, count)?;
    let mut work = LaneWork::new(alloc, z, 3).map_err(|_| "no memory")?;
    layer_serial(&layer, z, &mut p, &mut r);
    layer_lanes::<L>(&layer, z, &mut p_of_lanes, &mut r_of_lanes, &mut work);
    if p != p_of_lanes || r != r_of_lanes {
        return Err("lanes and rows differ".into());
    }
    Ok(())
}

// All numbers of lanes.
fn compare_all(alloc: Global, z: u16) -> Result<(), Fail>
    requires least { 4 ≤ z }
    requires most { z ≤ 1024 }
{
    compare::<1>(alloc, z)?;
    compare::<4>(alloc, z)?;
    compare::<8>(alloc, z)?;
    compare::<16>(alloc, z)?;
    compare::<32>(alloc, z)
}

#[test]
fn lanes_agree_with_the_serial_work(rt: HostRuntime) -> Result<(), Fail> {
    compare_all(rt.alloc(), 4)?;
    compare_all(rt.alloc(), 13)?;
    compare_all(rt.alloc(), 32)?;
    compare_all(rt.alloc(), 33)?;
    compare_all(rt.alloc(), 512)
}

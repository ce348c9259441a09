ghost use Rattle.std.specs.Prelude.{◌≡◌, ◌<◌, ◌≤◌, IsTrue, Some, slice_index_or};
ghost use Rattle.retry_ladder.specs.Running.{better, center_of};
ghost use Rattle.ssd_geo.specs.Ladder.{soft_levels};
ghost use Rattle.ssd_geo.specs.Limits.{is_level};

// The better of the best level so far and one more, with its failed checks.
pub(crate) fn better(best: Option<(i16, u32)>, level: i16, failed: u32) -> (i16, u32)
    ensures { Some result ≡ better best (level, failed) }
{
    match best {
        Some((other, fewest)) if fewest <= failed => (other, fewest),
        _ => (level, failed),
    }
}

// The level around which the soft part senses.
pub(crate) fn center_of(best: Option<(i16, u32)>) -> i16
    ensures { result ≡ center_of best }
{
    match best {
        Some((level, _)) => level,
        None => 0,
    }
}

// The level of this soft sense around a center, of five.
pub(crate) fn soft_level(step: u16, center: i16, k: u8) -> i16
    requires step { step ≤ 2047 }
    requires center { IsTrue (is_level center) }
    requires count { k < 5 }
    ensures { result ≡ slice_index_or (soft_levels step center) k center }
{
    let near = step as i16;
    let far = 2 * near;
    match k {
        0 => center - far,
        1 => center - near,
        2 => center,
        3 => center + near,
        _ => center + far,
    }
}

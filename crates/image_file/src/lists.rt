// The lists of an image's head.
ghost use Rattle.std.specs.Prelude.{◌+◌, ◌*◌, ◌^◌, ◌<◌, ◌≤◌, ◌≡◌, [], IfOk, IsTrue, length};
ghost use Rattle.ssd_formats.specs.Fields.{level_fields};
ghost use Rattle.ssd_formats.specs.ImageHead.{bad_of_channel, bad_record, bad_records, weak_records, rows_fit, comes_after, is_bad_record, is_weak_record, is_bad_before, is_weak_before, weak_record};
ghost use Rattle.ssd_geo.specs.Shape.{sizes_of};
ghost use Rattle.image_file.specs.Gives.{Reads};
ghost use Rattle.image_file.specs.Lists.{AreBad, AreLevels, AreWeak};

use crate::field::{i16_within, read_u32, u8_below, u16_below};
use crate::sizes::row_limit;
use crate::stop::{ImageFault, ReadStop};
use ssd_geo::{Shape, Weak};
use ssd_io::Source;
use std::alloc::Global;

/// So many read levels.
#[tactic(auto, using(crate::proofs::LevelSteps::level_more, crate::proofs::LevelSteps::level_stops, crate::proofs::LevelSteps::levels_end))]
pub fn read_levels<S: Source>(
    alloc: Global,
    input: &mut S,
    place: u64,
    count: u8,
) -> Result<Vec<i16>, ReadStop<ImageFault>>
    requires { place < 2 ^ 61 }
    ensures read { Reads (λ levels. levels.items) (S.left input.old) (S.left input.new) (S.faults input.old) (S.faults input.new)
        place (place + 2 * count) result (level_fields count []) }
    ensures levels { IfOk result (λ levels. AreLevels count levels.items) }
{
    let mut levels = Vec::new(alloc);
    for i in 0..count {
        match i16_within(input, place + 2 * i as u64, -16384, 16383) {
            Ok(level) => levels.push(level).map_err(|_| ReadStop::Memory)?,
            Err(stop) => return Err(stop),
        }
    }
    Ok(levels)
}

fn is_weak_below(first: &Weak, second: &Weak) -> bool
    ensures { result ≡ is_weak_before first.now second.now }
{
    first.channel < second.channel
        || first.channel == second.channel
            && (first.die < second.die || first.die == second.die && first.sb < second.sb)
}

fn follows_weak(before: &[Weak], next: &Weak) -> bool
    ensures { result ≡ comes_after is_weak_before before.now next.now }
{
    match before.last() {
        Some(last) => is_weak_below(last, next),
        None => true,
    }
}

/// A weak block, after those before.
#[tactic(auto, unfolding(ssd_formats::specs::ImageHead::weak_record))]
pub fn read_weak<S: Source>(
    input: &mut S,
    place: u64,
    shape: &Shape,
    before: &[Weak],
) -> Result<Weak, ReadStop<ImageFault>>
    requires { place < 2 ^ 61 }
    ensures read { Reads (λ weak. weak) (S.left input.old) (S.left input.new) (S.faults input.old) (S.faults input.new)
        place (place + 8) result (weak_record (sizes_of shape.now) before.now) }
    ensures weak { IfOk result (λ weak. IsTrue (is_weak_record (sizes_of shape.now) before.now weak)) }
    ensures from { IfOk result (λ weak. weak.from < 2 ^ 32) }
{
    let channel = u8_below(input, place, shape.channels)?;
    let die = u8_below(input, place + 1, shape.dies)?;
    let sb = u16_below(input, place + 2, shape.superblocks)?;
    let from = read_u32(input, place + 4)?;
    let weak = Weak {
        channel,
        die,
        sb,
        from,
    };
    if follows_weak(before, &weak) {
        return Ok(weak);
    }
    Err(ReadStop::Fault {
        at: place,
        fault: ImageFault::Order,
    })
}

fn is_bad_below(first: (u8, u16), second: (u8, u16)) -> bool
    ensures { result ≡ is_bad_before first second }
{
    first.0 < second.0 || first.0 == second.0 && first.1 < second.1
}

fn follows_bad(before: &[(u8, u16)], next: (u8, u16)) -> bool
    ensures { result ≡ comes_after is_bad_before before.now next }
{
    match before.last() {
        Some(last) => is_bad_below(*last, next),
        None => true,
    }
}

fn count_bad(before: &[(u8, u16)], channel: u8) -> usize
    ensures count { result ≡ bad_of_channel before.now channel }
    ensures bound { result ≤ length before.now }
{
    before.iter().filter(|bad| bad.0 == channel).count()
}

// Whether the rows of a channel still fit, with one more of its superblocks bad.
fn fits_rows(shape: &Shape, before: &[(u8, u16)], channel: u8) -> bool
    requires { length before.now < 2 ^ 16 }
    ensures { result ≡ rows_fit (sizes_of shape.now) before.now channel }
{
    let bad = count_bad(before, channel) as u32 + 1;
    shape.rows <= row_limit(shape.superblocks, shape.dies, shape.pages, bad)
}

/// A factory bad superblock, a channel and a superblock, after those before.
#[tactic(auto, unfolding(ssd_formats::specs::ImageHead::bad_record))]
pub fn read_bad<S: Source>(
    input: &mut S,
    place: u64,
    shape: &Shape,
    before: &[(u8, u16)],
) -> Result<(u8, u16), ReadStop<ImageFault>>
    requires place { place < 2 ^ 61 }
    requires before { length before.now < 2 ^ 16 }
    ensures read { Reads (λ bad. bad) (S.left input.old) (S.left input.new) (S.faults input.old) (S.faults input.new)
        place (place + 4) result (bad_record (sizes_of shape.now) before.now) }
    ensures bad { IfOk result (λ bad. IsTrue (is_bad_record (sizes_of shape.now) before.now bad)) }
{
    let channel = u8_below(input, place, shape.channels)?;
    u8_below(input, place + 1, 1)?;
    let sb = u16_below(input, place + 2, shape.superblocks)?;
    if !follows_bad(before, (channel, sb)) {
        return Err(ReadStop::Fault {
            at: place,
            fault: ImageFault::Order,
        });
    }
    if fits_rows(shape, before, channel) {
        return Ok((channel, sb));
    }
    Err(ReadStop::Fault {
        at: place,
        fault: ImageFault::Range,
    })
}

/// So many weak blocks.
#[tactic(auto, using(crate::proofs::LevelSteps::weak_more, crate::proofs::LevelSteps::weak_stops, crate::proofs::LevelSteps::weak_end))]
pub fn read_weaks<S: Source>(
    alloc: Global,
    input: &mut S,
    place: u64,
    shape: &Shape,
    count: u16,
) -> Result<Vec<Weak>, ReadStop<ImageFault>>
    requires { place < 2 ^ 60 }
    ensures read { Reads (λ weak. weak.items) (S.left input.old) (S.left input.new) (S.faults input.old) (S.faults input.new)
        place (place + 8 * count) result (weak_records (sizes_of shape.now) count []) }
    ensures weak { IfOk result (λ weak. AreWeak (sizes_of shape.now) count weak.items) }
{
    let mut weak = Vec::new(alloc);
    for i in 0..count {
        match read_weak(input, place + 8 * i as u64, shape, &weak) {
            Ok(next) => weak.push(next).map_err(|_| ReadStop::Memory)?,
            Err(stop) => return Err(stop),
        }
    }
    Ok(weak)
}

/// So many factory bad superblocks.
#[tactic(auto, using(crate::proofs::LevelSteps::bad_more, crate::proofs::LevelSteps::bad_stops, crate::proofs::LevelSteps::bad_end))]
pub fn read_bads<S: Source>(
    alloc: Global,
    input: &mut S,
    place: u64,
    shape: &Shape,
    count: u16,
) -> Result<Vec<(u8, u16)>, ReadStop<ImageFault>>
    requires { place < 2 ^ 60 }
    ensures read { Reads (λ bad. bad.items) (S.left input.old) (S.left input.new) (S.faults input.old) (S.faults input.new)
        place (place + 4 * count) result (bad_records (sizes_of shape.now) count []) }
    ensures bad { IfOk result (λ bad. AreBad (sizes_of shape.now) count bad.items) }
{
    let mut bad = Vec::new(alloc);
    for i in 0..count {
        match read_bad(input, place + 4 * i as u64, shape, &bad) {
            Ok(next) => bad.push(next).map_err(|_| ReadStop::Memory)?,
            Err(stop) => return Err(stop),
        }
    }
    Ok(bad)
}

// The page map of a channel.
ghost use Rattle.std.specs.Prelude.{◌≡◌, ◌+◌, ◌*◌, ◌^◌, ◌<◌, ◌≤◌, [], All, IfOk, IsTrue, OnOk, length, vec_len};
ghost use Rattle.ssd_formats.specs.Fields.{is_below};
ghost use Rattle.ssd_formats.specs.ImageContents.{are_saved_rows, is_saved_row, may_name, row_field, row_fields};
ghost use Rattle.ssd_geo.specs.Shape.{sizes_of};
ghost use Rattle.ssd_geo.specs.Superblock.{slots_of};
ghost use Rattle.image_file.specs.Gives.{Reads};
ghost use Rattle.image_contents.specs.Parts.{FitsRows, slot_field};

use crate::named::NamedRows;
use image_file::{ImageFault, ReadStop, read_u8, read_u16, read_u32, read_u64};
use ssd_geo::{BlockBase, Row, Shape, Slot};
use ssd_io::Source;
use std::alloc::Global;

// The slot that a row names whose first byte is at `row`: it is used, and no row before names it.
#[tactic(auto, using(crate::proofs::Numbers::or_passes, crate::proofs::Numbers::or_fails, crate::proofs::Numbers::or_lacks), unfolding(crate::specs::Parts::slot_field))]
fn read_slot<S: Source>(
    input: &mut S,
    row: u64,
    shape: &Shape,
    blocks: &[BlockBase],
    before: &NamedRows,
) -> Result<Slot, ReadStop<ImageFault>>
    requires place { row < 2 ^ 62 + 2 ^ 61 }
    requires fits { FitsRows (sizes_of shape.now) blocks.now before.now.superblocks before.now.slots }
    ensures read { Reads (λ slot. slot) (S.left input.old) (S.left input.new) (S.faults input.old) (S.faults input.new)
        (row + 1) (row + 7) result (slot_field (sizes_of shape.now) blocks.now before.now.rows.items row) }
    ensures may { IfOk result (λ slot. IsTrue (is_below shape.now.superblocks slot.sb)) }
    ensures named { IfOk result (λ slot. IsTrue (may_name blocks.now before.now.rows.items slot)) }
{
    let wrong = ReadStop::Fault {
        at: row,
        fault: ImageFault::Row,
    };
    let sb = read_u16(input, row + 1)?;
    if sb >= shape.superblocks {
        return Err(wrong);
    }
    let index = read_u32(input, row + 3)?;
    let slot = Slot { sb, index };
    if index < blocks[sb as usize].used && !before.is_named(slot) {
        return Ok(slot);
    }
    Err(wrong)
}

// The row after those before.
#[tactic(auto, using(crate::proofs::InParts::row_in_parts, crate::proofs::Numbers::or_passes, crate::proofs::Numbers::or_fails, crate::proofs::Numbers::or_lacks), unfolding(ssd_formats::specs::ImageContents::row_field))]
fn read_row<S: Source>(
    input: &mut S,
    place: &mut u64,
    shape: &Shape,
    blocks: &[BlockBase],
    before: &NamedRows,
) -> Result<Row, ReadStop<ImageFault>>
    requires place { place.old < 2 ^ 62 + 2 ^ 61 }
    requires fits { FitsRows (sizes_of shape.now) blocks.now before.now.superblocks before.now.slots }
    ensures read { Reads (λ row. row) (S.left input.old) (S.left input.new) (S.faults input.old) (S.faults input.new)
        place.old place.new result (row_field (sizes_of shape.now) blocks.now before.now.rows.items) }
    ensures near { OnOk result ((place.old ≤ place.new) × (place.new ≤ place.old + 15)) }
    ensures is_saved { IfOk result (λ row. IsTrue (is_saved_row (sizes_of shape.now) blocks.now before.now.rows.items row)) }
{
    let at = *place;
    let kind = read_u8(input, at)?;
    if kind > 2 {
        return Err(ReadStop::Fault {
            at,
            fault: ImageFault::Row,
        });
    }
    if kind != 1 {
        *place = at + 1;
        return Ok(if kind == 0 { Row::Empty } else { Row::Lost });
    }
    let slot = read_slot(input, at, shape, blocks, before)?;
    let serial = read_u64(input, at + 7)?;
    *place = at + 15;
    Ok(Row::Page { slot, serial })
}

/// All rows of a channel with these superblocks.
pub fn read_rows<S: Source>(
    alloc: Global,
    input: &mut S,
    place: &mut u64,
    shape: &Shape,
    blocks: &[BlockBase],
) -> Result<Vec<Row>, ReadStop<ImageFault>>
    requires place { place.old < 2 ^ 62 + 2 ^ 60 }
    requires count { length blocks.now ≡ shape.now.superblocks }
    requires used { All (λ block. block.used ≤ slots_of shape.now.pages shape.now.dies) blocks.now }
    ensures read { Reads (λ rows. rows.items) (S.left input.old) (S.left input.new) (S.faults input.old) (S.faults input.new)
        place.old place.new result (row_fields (sizes_of shape.now) blocks.now shape.now.rows []) }
    ensures near { OnOk result ((place.old ≤ place.new) × (place.new ≤ place.old + 2 ^ 36)) }
    ensures are_saved { IfOk result (λ rows. IsTrue (are_saved_rows (sizes_of shape.now) blocks.now [] rows.items)) }
    ensures all { IfOk result (λ rows. vec_len rows ≡ shape.now.rows) }
{
    let mut rows = NamedRows::new(alloc, shape).map_err(|_| ReadStop::Memory)?;
    for _ in 0..shape.rows {
        match read_row(input, place, shape, blocks, &rows) {
            Ok(row) => rows.push(row).map_err(|_| ReadStop::Memory)?,
            Err(stop) => return Err(stop),
        }
    }
    Ok(rows.into_rows())
}

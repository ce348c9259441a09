// The head of an image.
ghost use Rattle.std.specs.Prelude.{◌^◌, ◌<◌, IfOk};
ghost use Rattle.ssd_formats.specs.ImageHead.{IsHead, head_of};
ghost use Rattle.image_file.specs.Gives.{ReadsUpTo};
ghost use Rattle.image_file.specs.HeadGiven.{ReadsHead};
ghost use Rattle.image_file.specs.HeadParts.{head_fields};
ghost use Rattle.image_file.specs.StopCauses.{StopsWithCause};

use crate::blocks::read_blocks;
use crate::field::u8_within;
use crate::fixed::read_fixed;
use crate::lists::read_levels;
use crate::matrix::read_matrix;
use crate::stop::{ImageFault, ReadStop};
use ssd_geo::{ImageHead, Items};
use ssd_io::Source;
use std::alloc::Global;

// The head, part by part.
#[tactic(auto, using(crate::proofs::HeadRanges::head_is), unfolding(crate::specs::HeadParts::head_fields))]
fn read_parts<S: Source>(alloc: Global, input: &mut S) -> Result<ImageHead, ReadStop<ImageFault>>
    ensures read { ReadsUpTo head_of (λ head. head.place) (S.left input.old) (S.left input.new) (S.faults input.old) (S.faults input.new)
        0 result head_fields }
    ensures range { IfOk result (λ head. IsHead (head_of head)) }
    ensures place { IfOk result (λ head. head.place < 2 ^ 60) }
{
    let fixed = read_fixed(input)?;
    let levels = read_levels(alloc, input, fixed.place, fixed.levels)?;
    let matrix_at = fixed.place + 2 * fixed.levels as u64;
    let entries = read_matrix(alloc, input, matrix_at, &fixed.shape)?;
    let blocks_at = matrix_at + 2 * (fixed.shape.mb as u64 * fixed.shape.nb as u64);
    let blocks = read_blocks(alloc, input, blocks_at, &fixed.shape)?;
    let contents = u8_within(input, blocks.place, 0, 1)?;
    Ok(ImageHead {
        shape: fixed.shape,
        read_levels: Items::new(levels),
        iterations: fixed.iterations,
        law: fixed.law,
        step: fixed.step,
        session: fixed.session,
        entries: Items::new(entries),
        weak: Items::new(blocks.weak),
        bad: Items::new(blocks.bad),
        full: contents == 1,
        place: blocks.place + 1,
    })
}

/// The head of the image that the source begins with, of either version. After a fault the source stands where it had come.
#[tactic(auto, using(crate::proofs::HeadInParts::head_in_parts))]
pub fn read_head<S: Source>(alloc: Global, input: &mut S) -> Result<ImageHead, ReadStop<ImageFault>>
    ensures read { ReadsHead (S.left input.old) (S.left input.new) result }
    ensures cause { StopsWithCause (S.faults input.old) (S.faults input.new) result }
    ensures range { IfOk result (λ head. IsHead (head_of head)) }
    ensures place { IfOk result (λ head. head.place < 2 ^ 60) }
{
    read_parts(alloc, input)
}

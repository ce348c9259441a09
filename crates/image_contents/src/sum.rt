// The sum of the data words of a channel's open stripe.
ghost use Rattle.std.specs.Prelude.{◌≡◌, ◌+◌, ◌^◌, ◌<◌, ◌≤◌, [], IfOk, IsTrue, OnOk, if◌then◌else◌, length, not};
ghost use Rattle.ssd_formats.specs.Fields.{field_or, passing};
ghost use Rattle.ssd_formats.specs.ImageContents.{is_page_word, is_stripe_open, is_sum, sum_field};
ghost use Rattle.ssd_formats.specs.ImageHead.{IsHead, head_of, matrix_of_head};
ghost use Rattle.ssd_formats.specs.InputFaults as faults;
ghost use Rattle.ssd_geo.specs.BaseMatrix.{BaseMatrix};
ghost use Rattle.ssd_geo.specs.Coding.{word_bytes_in};
ghost use Rattle.ssd_geo.specs.Limits.{code_bytes_of, word_bytes_of};
ghost use Rattle.ssd_geo.specs.Shape.{sizes_of};
ghost use Rattle.image_file.specs.Gives.{Reads};
ghost use Rattle.image_contents.specs.Parts.{is_word_of, word_field};

use image_file::{ImageFault, ReadStop, read_bytes};
use page_head::part_into;
use qc_matrix::Code;
use ssd_geo::{BlockBase, ImageHead, Memory, SbState, Shape};
use ssd_io::Source;
use std::alloc::Global;

// The code of an image's head.
fn code_of(alloc: Global, head: &ImageHead) -> Result<Code, Memory>
    requires { IsHead (head_of head.now) }
    ensures { IfOk result (λ code. code ≡ matrix_of_head (head_of head.now)) }
{
    let shape = &head.shape;
    Code::read(alloc, head.entries.as_slice(), shape.mb, shape.nb, shape.z).map_err(|_| Memory)
}

// Whether each codeword of a page's word fails no check. Each is taken into `part`.
fn has_codewords(shape: &Shape, code: &Code, word: &[u8], part: &mut [u8]) -> bool
    requires code { (code.now.z ≡ shape.now.z) × (code.now.nb ≡ shape.now.nb) }
    requires word { length word.now ≡ word_bytes_in shape.now }
    requires part { length part.old ≡ code_bytes_of (sizes_of shape.now) }
    ensures { result ≡ is_word_of code.now (sizes_of shape.now) word.now }
{
    for f in 0..shape.words {
        part_into(shape, word, f, part);
        if code.failed_checks(part) != 0 {
            return false;
        }
    }
    true
}

// The sum, which is a page's word.
#[tactic(auto, using(crate::proofs::Numbers::word_passes, crate::proofs::Numbers::word_fails, crate::proofs::Numbers::word_lacks))]
fn read_word<S: Source>(
    alloc: Global,
    input: &mut S,
    place: u64,
    head: &ImageHead,
    sum: &mut [u8],
) -> Result<(), ReadStop<ImageFault>>
    requires place { place < 2 ^ 63 }
    requires head { IsHead (head_of head.now) }
    requires sum { length sum.old ≡ word_bytes_in head.now.shape }
    ensures read { Reads (λ _. sum.new) (S.left input.old) (S.left input.new) (S.faults input.old) (S.faults input.new)
        place (place + word_bytes_in head.now.shape) result (word_field (head_of head.now)) }
    ensures word { OnOk result (IsTrue (is_page_word (head_of head.now) sum.new)) }
    ensures length { length sum.new ≡ length sum.old }
{
    let code = match code_of(alloc, head) {
        Ok(code) => code,
        Err(Memory) => return Err(ReadStop::Memory),
    };
    let mut part = vec![in alloc; 0; head.shape.code_bytes()].map_err(|_| ReadStop::Memory)?;
    read_bytes(input, place, sum)?;
    if has_codewords(&head.shape, &code, sum, &mut part) {
        return Ok(());
    }
    Err(ReadStop::Fault {
        at: place,
        fault: ImageFault::Sum,
    })
}

// Whether a superblock has an open stripe.
fn has_open_stripe(shape: &Shape, block: &BlockBase) -> bool
    ensures { result ≡ is_stripe_open (sizes_of shape.now) block.now }
{
    block.state == SbState::Frontier && block.used % (shape.dies as u32 - 1) != 0
}

/// The sum of the data words of a superblock's open stripe, where it has one. Without one `sum` stays.
pub fn read_sum<S: Source>(
    alloc: Global,
    input: &mut S,
    place: &mut u64,
    head: &ImageHead,
    block: &BlockBase,
    sum: &mut [u8],
) -> Result<(), ReadStop<ImageFault>>
    requires place { place.old < 2 ^ 63 }
    requires head { IsHead (head_of head.now) }
    requires sum { length sum.old ≡ word_bytes_in head.now.shape }
    ensures read { Reads (λ _. if is_stripe_open (sizes_of head.now.shape) block.now then sum.new else [])
        (S.left input.old) (S.left input.new) (S.faults input.old) (S.faults input.new) place.old place.new result
        (sum_field (head_of head.now) block.now) }
    ensures near { OnOk result ((place.old ≤ place.new) × (place.new ≤ place.old + 2 ^ 16)) }
    ensures stays { IsTrue (not (is_stripe_open (sizes_of head.now.shape) block.now)) → sum.new ≡ sum.old }
    ensures is_sum { OnOk result (IsTrue (is_sum (head_of head.now) block.now
        (if is_stripe_open (sizes_of head.now.shape) block.now then sum.new else []))) }
    ensures length { length sum.new ≡ length sum.old }
{
    if !has_open_stripe(&head.shape, block) {
        return Ok(());
    }
    let at = *place;
    read_word(alloc, input, at, head, sum)?;
    *place = at + sum.len() as u64;
    Ok(())
}

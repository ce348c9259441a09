// The fields of fixed places.
ghost use Rattle.std.specs.Prelude.{◌≡◌, ◌+◌, ◌^◌, ◌<◌, ◌≤◌, IfOk, IsTrue, negsuc, pos};
ghost use Rattle.ssd_formats.specs.Fields.{signed_field};
ghost use Rattle.ssd_geo.specs.Limits.{is_signed_within};
ghost use Rattle.ssd_formats.specs.ImageHead.{fixed_fields, is_programmed_level};
ghost use Rattle.image_file.specs.Fixed.{AreFixed, fixed_of, law_level_fields, later_fields};
ghost use Rattle.image_file.specs.Gives.{Reads, ReadsUpTo};
ghost use Rattle.image_file.specs.Sizes.{AreSizesRead, sizes_read_of};

use crate::field::{i16_within, read_i16, read_u64, u16_within, u32_below};
use crate::sizes::{SizeFields, read_sizes, read_words};
use crate::stop::{ImageFault, ReadStop};
use ssd_geo::{CellLaw, Shape};
use ssd_io::Source;

/// What the fields of fixed places tell.
#[derive(Clone, Copy)]
pub struct FixedFields {
    pub shape: Shape,
    /// How many read levels follow.
    pub levels: u8,
    pub iterations: u8,
    pub law: CellLaw,
    pub step: u16,
    pub session: u32,
    /// The place of what follows.
    pub place: u64,
}

// The level of programmed cells.
fn read_programmed<S: Source>(
    input: &mut S,
    place: u64,
    erased: i16,
) -> Result<i16, ReadStop<ImageFault>>
    requires { place < 2 ^ 61 }
    ensures read { Reads (λ n. n) (S.left input.old) (S.left input.new) (S.faults input.old) (S.faults input.new) place (place + 2)
        result (signed_field (is_programmed_level erased)) }
    ensures range { IfOk result (λ n. IsTrue (is_programmed_level erased n)) }
{
    let programmed = read_i16(input, place)?;
    if erased < programmed && programmed <= 8191 {
        return Ok(programmed);
    }
    Err(ReadStop::Fault {
        at: place,
        fault: ImageFault::Range,
    })
}

// The levels of erased and of programmed cells.
#[tactic(auto, unfolding(crate::specs::Fixed::law_level_fields))]
fn read_law_levels<S: Source>(input: &mut S, place: u64) -> Result<(i16, i16), ReadStop<ImageFault>>
    requires { place < 2 ^ 60 }
    ensures read { Reads (λ levels. levels) (S.left input.old) (S.left input.new) (S.faults input.old) (S.faults input.new)
        place (place + 4) result law_level_fields }
    ensures erased { IfOk result (λ levels. IsTrue (is_signed_within (negsuc 8191) (pos 8190) levels.0)) }
    ensures programmed { IfOk result (λ levels. IsTrue (is_programmed_level levels.0 levels.1)) }
{
    let erased = i16_within(input, place, -8192, 8190)?;
    let programmed = read_programmed(input, place + 2, erased)?;
    Ok((erased, programmed))
}

// The fields behind the rows.
#[tactic(auto, unfolding(crate::specs::Fixed::later_fields))]
fn read_later<S: Source>(
    input: &mut S,
    sizes: SizeFields,
    place: u64,
) -> Result<FixedFields, ReadStop<ImageFault>>
    requires sizes { AreSizesRead (sizes_read_of sizes) }
    requires place { place < 2 ^ 59 }
    ensures read { Reads fixed_of (S.left input.old) (S.left input.new) (S.faults input.old) (S.faults input.new) place (place + 20)
        result (later_fields (sizes_read_of sizes)) }
    ensures range { IfOk result (λ fixed. AreFixed (fixed_of fixed)) }
    ensures place { IfOk result (λ fixed. fixed.place ≡ place + 20) }
{
    // Each place is the one before and the bytes of the field there.
    let seed = read_u64(input, place)?;
    let session = u32_below(input, place + 8, 1 << 24)?;
    let (erased, programmed) = read_law_levels(input, place + 8 + 4)?;
    let spread = u16_within(input, place + 8 + 4 + 4, 0, 4095)?;
    let step = u16_within(input, place + 8 + 4 + 4 + 2, 1, 2047)?;
    Ok(FixedFields {
        shape: sizes.shape,
        levels: sizes.levels,
        iterations: sizes.iterations,
        law: CellLaw {
            erased,
            programmed,
            spread,
            seed,
        },
        step,
        session,
        place: place + 20,
    })
}

/// The fields of fixed places.
#[tactic(auto, using(crate::proofs::FixedParts::fixed_in_parts))]
pub fn read_fixed<S: Source>(input: &mut S) -> Result<FixedFields, ReadStop<ImageFault>>
    ensures read { ReadsUpTo fixed_of (λ fixed. fixed.place) (S.left input.old) (S.left input.new)
        (S.faults input.old) (S.faults input.new) 0 result fixed_fields }
    ensures range { IfOk result (λ fixed. AreFixed (fixed_of fixed)) }
    ensures place { IfOk result (λ fixed. fixed.place ≤ 49) }
{
    let count = read_words(input)?;
    let sizes = read_sizes(input, count.words, count.place)?;
    read_later(input, sizes, count.place + 20)
}

// Fields of an image, each at its place.
ghost use Rattle.std.specs.Prelude.{◌≡◌, ◌+◌, ◌^◌, ◌<◌, ◌≤◌, IfOk, IsTrue, length};
ghost use Rattle.std.specs.Int.{w8, w16, w32, w64};
ghost use Rattle.ssd_formats.specs.Fields.{bytes_field, is_any, is_below, number_field, signed_field};
ghost use Rattle.ssd_geo.specs.Limits.{is_signed_within, is_within};
ghost use Rattle.image_file.specs.Gives.{is_any_signed, Reads};

use crate::bytes::fill;
use crate::stop::{ImageFault, ReadStop};
use ssd_io::{Failed, Source};

/// Fills `into` with the next bytes.
#[tactic(auto, using(crate::proofs::Fields::short_field, crate::proofs::Fields::whole_field))]
pub fn read_bytes<S: Source>(
    input: &mut S,
    place: u64,
    into: &mut [u8],
) -> Result<(), ReadStop<ImageFault>>
    requires { place + length into.old < 2 ^ 64 }
    ensures read { Reads (λ _. into.new) (S.left input.old) (S.left input.new) (S.faults input.old) (S.faults input.new)
        place (place + length into.old) result (bytes_field (length into.old)) }
    ensures length { length into.new ≡ length into.old }
{
    match fill(input, into) {
        Err(Failed) => Err(ReadStop::ReadFault),
        Ok(given) => {
            if given < into.len() {
                return Err(ReadStop::Fault {
                    at: place + given as u64,
                    fault: ImageFault::Short,
                });
            }
            Ok(())
        }
    }
}

/// The next byte.
pub fn read_u8<S: Source>(input: &mut S, place: u64) -> Result<u8, ReadStop<ImageFault>>
    requires { place < 2 ^ 63 }
    ensures { Reads (λ n. n) (S.left input.old) (S.left input.new) (S.faults input.old) (S.faults input.new) place (place + 1)
        result (number_field w8 is_any) }
{
    let mut bytes = [0; 1];
    read_bytes(input, place, &mut bytes)?;
    Ok(u8::from_le_bytes(bytes))
}

/// The next number of two bytes.
pub fn read_u16<S: Source>(input: &mut S, place: u64) -> Result<u16, ReadStop<ImageFault>>
    requires { place < 2 ^ 63 }
    ensures { Reads (λ n. n) (S.left input.old) (S.left input.new) (S.faults input.old) (S.faults input.new) place (place + 2)
        result (number_field w16 is_any) }
{
    let mut bytes = [0; 2];
    read_bytes(input, place, &mut bytes)?;
    Ok(u16::from_le_bytes(bytes))
}

/// The next number of four bytes.
pub fn read_u32<S: Source>(input: &mut S, place: u64) -> Result<u32, ReadStop<ImageFault>>
    requires { place < 2 ^ 63 }
    ensures { Reads (λ n. n) (S.left input.old) (S.left input.new) (S.faults input.old) (S.faults input.new) place (place + 4)
        result (number_field w32 is_any) }
{
    let mut bytes = [0; 4];
    read_bytes(input, place, &mut bytes)?;
    Ok(u32::from_le_bytes(bytes))
}

/// The next number of eight bytes.
pub fn read_u64<S: Source>(input: &mut S, place: u64) -> Result<u64, ReadStop<ImageFault>>
    requires { place < 2 ^ 63 }
    ensures { Reads (λ n. n) (S.left input.old) (S.left input.new) (S.faults input.old) (S.faults input.new) place (place + 8)
        result (number_field w64 is_any) }
{
    let mut bytes = [0; 8];
    read_bytes(input, place, &mut bytes)?;
    Ok(u64::from_le_bytes(bytes))
}

/// The next number of two bytes with a sign.
pub fn read_i16<S: Source>(input: &mut S, place: u64) -> Result<i16, ReadStop<ImageFault>>
    requires { place < 2 ^ 63 }
    ensures { Reads (λ n. n) (S.left input.old) (S.left input.new) (S.faults input.old) (S.faults input.new) place (place + 2)
        result (signed_field is_any_signed) }
{
    let mut bytes = [0; 2];
    read_bytes(input, place, &mut bytes)?;
    Ok(i16::from_le_bytes(bytes))
}

/// The next byte, which is in a range.
#[tactic(auto, using(crate::proofs::Fields::number_passes, crate::proofs::Fields::number_fails, crate::proofs::Fields::number_lacks))]
pub fn u8_within<S: Source>(
    input: &mut S,
    place: u64,
    low: u8,
    high: u8,
) -> Result<u8, ReadStop<ImageFault>>
    requires { place < 2 ^ 63 }
    ensures read { Reads (λ n. n) (S.left input.old) (S.left input.new) (S.faults input.old) (S.faults input.new) place (place + 1)
        result (number_field w8 (is_within low high)) }
    ensures range { IfOk result (λ n. (low ≤ n) × (n ≤ high)) }
{
    let number = read_u8(input, place)?;
    if low <= number && number <= high {
        return Ok(number);
    }
    Err(ReadStop::Fault {
        at: place,
        fault: ImageFault::Range,
    })
}

/// The next byte, which is below a bound.
#[tactic(auto, using(crate::proofs::Fields::number_passes, crate::proofs::Fields::number_fails, crate::proofs::Fields::number_lacks))]
pub fn u8_below<S: Source>(input: &mut S, place: u64, bound: u8) -> Result<u8, ReadStop<ImageFault>>
    requires { place < 2 ^ 63 }
    ensures read { Reads (λ n. n) (S.left input.old) (S.left input.new) (S.faults input.old) (S.faults input.new) place (place + 1)
        result (number_field w8 (is_below bound)) }
    ensures range { IfOk result (λ n. n < bound) }
{
    let number = read_u8(input, place)?;
    if number < bound {
        return Ok(number);
    }
    Err(ReadStop::Fault {
        at: place,
        fault: ImageFault::Range,
    })
}

/// The next number of two bytes, which is in a range.
#[tactic(auto, using(crate::proofs::Fields::number_passes, crate::proofs::Fields::number_fails, crate::proofs::Fields::number_lacks))]
pub fn u16_within<S: Source>(
    input: &mut S,
    place: u64,
    low: u16,
    high: u16,
) -> Result<u16, ReadStop<ImageFault>>
    requires { place < 2 ^ 63 }
    ensures read { Reads (λ n. n) (S.left input.old) (S.left input.new) (S.faults input.old) (S.faults input.new) place (place + 2)
        result (number_field w16 (is_within low high)) }
    ensures range { IfOk result (λ n. (low ≤ n) × (n ≤ high)) }
{
    let number = read_u16(input, place)?;
    if low <= number && number <= high {
        return Ok(number);
    }
    Err(ReadStop::Fault {
        at: place,
        fault: ImageFault::Range,
    })
}

/// The next number of two bytes, which is below a bound.
#[tactic(auto, using(crate::proofs::Fields::number_passes, crate::proofs::Fields::number_fails, crate::proofs::Fields::number_lacks))]
pub fn u16_below<S: Source>(
    input: &mut S,
    place: u64,
    bound: u16,
) -> Result<u16, ReadStop<ImageFault>>
    requires { place < 2 ^ 63 }
    ensures read { Reads (λ n. n) (S.left input.old) (S.left input.new) (S.faults input.old) (S.faults input.new) place (place + 2)
        result (number_field w16 (is_below bound)) }
    ensures range { IfOk result (λ n. n < bound) }
{
    let number = read_u16(input, place)?;
    if number < bound {
        return Ok(number);
    }
    Err(ReadStop::Fault {
        at: place,
        fault: ImageFault::Range,
    })
}

/// The next number of four bytes, which is in a range.
#[tactic(auto, using(crate::proofs::Fields::number_passes, crate::proofs::Fields::number_fails, crate::proofs::Fields::number_lacks))]
pub fn u32_within<S: Source>(
    input: &mut S,
    place: u64,
    low: u32,
    high: u32,
) -> Result<u32, ReadStop<ImageFault>>
    requires { place < 2 ^ 63 }
    ensures read { Reads (λ n. n) (S.left input.old) (S.left input.new) (S.faults input.old) (S.faults input.new) place (place + 4)
        result (number_field w32 (is_within low high)) }
    ensures range { IfOk result (λ n. (low ≤ n) × (n ≤ high)) }
{
    let number = read_u32(input, place)?;
    if low <= number && number <= high {
        return Ok(number);
    }
    Err(ReadStop::Fault {
        at: place,
        fault: ImageFault::Range,
    })
}

/// The next number of four bytes, which is below a bound.
#[tactic(auto, using(crate::proofs::Fields::number_passes, crate::proofs::Fields::number_fails, crate::proofs::Fields::number_lacks))]
pub fn u32_below<S: Source>(
    input: &mut S,
    place: u64,
    bound: u32,
) -> Result<u32, ReadStop<ImageFault>>
    requires { place < 2 ^ 63 }
    ensures read { Reads (λ n. n) (S.left input.old) (S.left input.new) (S.faults input.old) (S.faults input.new) place (place + 4)
        result (number_field w32 (is_below bound)) }
    ensures range { IfOk result (λ n. n < bound) }
{
    let number = read_u32(input, place)?;
    if number < bound {
        return Ok(number);
    }
    Err(ReadStop::Fault {
        at: place,
        fault: ImageFault::Range,
    })
}

/// The next number of two bytes with a sign, which is in a range.
#[tactic(auto, using(crate::proofs::Fields::signed_passes, crate::proofs::Fields::signed_fails, crate::proofs::Fields::signed_lacks))]
pub fn i16_within<S: Source>(
    input: &mut S,
    place: u64,
    low: i16,
    high: i16,
) -> Result<i16, ReadStop<ImageFault>>
    requires { place < 2 ^ 63 }
    ensures read { Reads (λ n. n) (S.left input.old) (S.left input.new) (S.faults input.old) (S.faults input.new) place (place + 2)
        result (signed_field (is_signed_within low high)) }
    ensures range { IfOk result (λ n. IsTrue (is_signed_within low high n)) }
{
    let number = read_i16(input, place)?;
    if low <= number && number <= high {
        return Ok(number);
    }
    Err(ReadStop::Fault {
        at: place,
        fault: ImageFault::Range,
    })
}

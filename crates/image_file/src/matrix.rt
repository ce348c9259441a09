// The base matrix of an image, which is read whole and then tested.
ghost use Rattle.std.specs.Prelude.{◌≡◌, ◌+◌, ◌*◌, ◌/◌, ◌^◌, ◌<◌, ◌≤◌, IfOk, IsTrue, length};
ghost use Rattle.std.specs.List.{list_all};
ghost use Rattle.ssd_geo.specs.BaseMatrix.{IsAccepted};
ghost use Rattle.ssd_formats.specs.ImageHead.{is_short, matrix_field, signed_numbers};
ghost use Rattle.ssd_geo.specs.Shape.{sizes_of};
ghost use Rattle.image_file.specs.Gives.{Reads};
ghost use Rattle.image_file.specs.Matrix.{entries_field, matrix_of_shape, matrix_stop};

use crate::field::read_bytes;
use crate::stop::{ImageFault, ReadStop};
use qc_matrix::{Code, CodeFault};
use ssd_geo::Shape;
use ssd_io::Source;
use std::alloc::{AllocError, Global};

/// Bytes of the greatest base matrix, of 16 rows and 128 columns.
const MATRIX_BYTES: usize = 4096;

// The numbers of 16 bits with a sign that bytes spell, two for each.
fn numbers_of(alloc: Global, bytes: &[u8]) -> Result<Vec<i16>, AllocError>
    ensures numbers { IfOk result (λ numbers. numbers.items ≡ signed_numbers bytes.now) }
    ensures count { IfOk result (λ numbers. length numbers.items ≡ length bytes.now / 2) }
    ensures short { IfOk result (λ numbers. IsTrue (list_all is_short numbers.items)) }
{
    let count = bytes.len() / 2;
    let mut numbers = Vec::with_capacity(alloc, count)?;
    for i in 0..count {
        numbers.push(i16::from_le_bytes([bytes[2 * i], bytes[2 * i + 1]]))?;
    }
    Ok(numbers)
}

// So many entries.
fn read_entries<S: Source>(
    alloc: Global,
    input: &mut S,
    place: u64,
    count: usize,
) -> Result<Vec<i16>, ReadStop<ImageFault>>
    requires place { place < 2 ^ 61 }
    requires count { count ≤ 2048 }
    ensures read { Reads (λ entries. entries.items) (S.left input.old) (S.left input.new) (S.faults input.old) (S.faults input.new)
        place (place + 2 * count) result (entries_field (2 * count)) }
    ensures whole { IfOk result (λ entries. length entries.items ≡ count) }
    ensures short { IfOk result (λ entries. IsTrue (list_all is_short entries.items)) }
{
    let mut buffer = [0; MATRIX_BYTES];
    let bytes = &mut buffer[..2 * count];
    read_bytes(input, place, bytes)?;
    numbers_of(alloc, bytes).map_err(|_| ReadStop::Memory)
}

// The place of an entry in a matrix of so many columns, which begins at a place.
fn place_of(place: u64, nb: u8, row: u8, column: u8) -> u64
    requires { place < 2 ^ 61 }
    ensures { result ≡ place + 2 * (row * nb + column) }
{
    place + 2 * (row as u64 * nb as u64 + column as u64)
}

// What is wrong in an image, with a matrix that begins at a place and has this fault.
fn stop_of(fault: CodeFault, place: u64, mb: u8, nb: u8) -> ReadStop<ImageFault>
    requires place { place < 2 ^ 61 }
    requires columns { mb < nb }
    ensures { result ≡ matrix_stop place mb nb fault }
{
    match fault {
        CodeFault::EntryRange { row, col } => ReadStop::Fault {
            at: place_of(place, nb, row, col),
            fault: ImageFault::Entry,
        },
        CodeFault::ParityColumn { row } => ReadStop::Fault {
            at: place_of(place, nb, row, nb - mb),
            fault: ImageFault::Parity,
        },
        CodeFault::Diagonal { row, col } => ReadStop::Fault {
            at: place_of(place, nb, row, col),
            fault: ImageFault::Diagonal,
        },
        CodeFault::Memory => ReadStop::Memory,
    }
}

/// The base matrix, which has a code.
#[tactic(auto, using(crate::proofs::MatrixSteps::matrix_cause, crate::proofs::MatrixSteps::matrix_fails, crate::proofs::MatrixSteps::matrix_passes, crate::proofs::MatrixSteps::matrix_stops))]
pub fn read_matrix<S: Source>(
    alloc: Global,
    input: &mut S,
    place: u64,
    shape: &Shape,
) -> Result<Vec<i16>, ReadStop<ImageFault>>
    requires place { place < 2 ^ 61 }
    requires z_low { 4 ≤ shape.now.z }
    requires z_high { shape.now.z ≤ 1024 }
    requires mb_low { 3 ≤ shape.now.mb }
    requires mb_high { shape.now.mb ≤ 16 }
    requires nb_low { shape.now.mb < shape.now.nb }
    requires nb_high { shape.now.nb ≤ 128 }
    ensures read { Reads (λ entries. entries.items) (S.left input.old) (S.left input.new) (S.faults input.old) (S.faults input.new)
        place (place + 2 * (shape.now.mb * shape.now.nb)) result (matrix_field (sizes_of shape.now)) }
    ensures short { IfOk result (λ entries. IsTrue (list_all is_short entries.items)) }
    ensures accepted { IfOk result (λ entries. IsAccepted (matrix_of_shape shape.now entries.items)) }
{
    let count = shape.mb as usize * shape.nb as usize;
    let entries = read_entries(alloc, input, place, count)?;
    match Code::read(alloc, &entries, shape.mb, shape.nb, shape.z) {
        Ok(_) => Ok(entries),
        Err(fault) => Err(stop_of(fault, place, shape.mb, shape.nb)),
    }
}

// The pages of one superblock, loaded into the dies of its channel.
ghost use Rattle.std.specs.Prelude.{◌≡◌, ◌+◌, ◌*◌, ◌^◌, ◌<◌, ◌≤◌, [], All, OnOk, length, map, vec_len};
ghost use Rattle.ssd_formats.specs.ImageContents.{die_fields, page_fields};
ghost use Rattle.ssd_geo.specs.Limits.{page_cells_of};
ghost use Rattle.ssd_geo.specs.Shape.{sizes_of};
ghost use Rattle.image_contents.specs.DiesLoaded.{AddsPage, BecomeLoaded, CountsLoad, IsDieIn, KeepsPlan, LoadsBlock, block_of, count_at, pages_in};
ghost use Rattle.image_contents.specs.Loads.{Loads};
ghost use Rattle.drive_dies.specs.Mounting.{EachBecomes};

use crate::levels::read_page;
use crate::work::PageWork;
use image_file::{ImageFault, ReadStop};
use onfi_cmd::{Die, DieFailed};
use ssd_geo::Shape;
use ssd_io::Source;

// The next page of a block, loaded into its die, which has this number in the drive.
fn load_next<S: Source, D: Die>(
    input: &mut S,
    place: &mut u64,
    shape: &Shape,
    die: &mut D,
    number: u8,
    sb: u16,
    page: u16,
    work: &mut PageWork,
) -> Result<(), ReadStop<ImageFault>>
    requires place { place.old < 2 ^ 63 }
    requires die { IsDieIn shape.now (D.state die.old) }
    requires sb { sb < shape.now.superblocks }
    requires page { page < shape.now.pages }
    requires next { page ≡ length (block_of sb (D.state die.old)).pages }
    requires cells { vec_len work.old.levels ≡ page_cells_of (sizes_of shape.now) }
    ensures read { Loads (λ _ pages. (block_of sb (D.state die.new)).pages ≡ pages) (S.left input.old) (S.left input.new)
        (S.faults input.old) (S.faults input.new) place.old place.new result
        (page_fields (page_cells_of (sizes_of shape.now)) 1 (block_of sb (D.state die.old)).pages) }
    ensures place { OnOk result (place.new ≡ place.old + 2 * page_cells_of (sizes_of shape.now)) }
    ensures keeps { KeepsPlan (D.state die.old) (D.state die.new) }
    ensures counts { CountsLoad number (D.state die.old).load_count (D.state die.new).load_count result }
    ensures adds { OnOk result (AddsPage sb (page_cells_of (sizes_of shape.now)) (D.state die.old) (D.state die.new)) }
    ensures length { vec_len work.new.levels ≡ vec_len work.old.levels }
{
    match read_page(input, place, work) {
        Ok(()) => {}
        Err(stop) => return Err(stop),
    }
    match die.load_page(sb, page, &work.levels) {
        Ok(()) => Ok(()),
        Err(DieFailed) => Err(ReadStop::DieFailed { die: number }),
    }
}

// So many pages of a block without pages, loaded into its die.
fn load_pages<S: Source, D: Die>(
    input: &mut S,
    place: &mut u64,
    shape: &Shape,
    die: &mut D,
    number: u8,
    sb: u16,
    count: u16,
    work: &mut PageWork,
) -> Result<(), ReadStop<ImageFault>>
    requires place { place.old < 2 ^ 62 + 2 ^ 60 }
    requires die { IsDieIn shape.now (D.state die.old) }
    requires sb { sb < shape.now.superblocks }
    requires count { count ≤ shape.now.pages }
    requires blank { (block_of sb (D.state die.old)).pages ≡ [] }
    requires cells { vec_len work.old.levels ≡ page_cells_of (sizes_of shape.now) }
    ensures read { Loads (λ _ pages. (block_of sb (D.state die.new)).pages ≡ pages) (S.left input.old) (S.left input.new)
        (S.faults input.old) (S.faults input.new) place.old place.new result
        (page_fields (page_cells_of (sizes_of shape.now)) count []) }
    ensures place { OnOk result (place.new ≡ place.old + count * (2 * page_cells_of (sizes_of shape.now))) }
    ensures keeps { KeepsPlan (D.state die.old) (D.state die.new) }
    ensures counts { CountsLoad number (D.state die.old).load_count (D.state die.new).load_count result }
    ensures loads { let cells = page_cells_of (sizes_of shape.now) in
        OnOk result (LoadsBlock sb (block_of sb (D.state die.old)).erases count cells (D.state die.old) (D.state die.new)) }
    ensures length { vec_len work.new.levels ≡ vec_len work.old.levels }
{
    for page in 0..count {
        match load_next(input, place, shape, die, number, sb, page, work) {
            Ok(()) => {}
            Err(stop) => return Err(stop),
        }
    }
    Ok(())
}

// A block of a die: how often it was erased, and so many pages.
fn load_block<S: Source, D: Die>(
    input: &mut S,
    place: &mut u64,
    shape: &Shape,
    die: &mut D,
    number: u8,
    sb: u16,
    erases: u32,
    count: u16,
    work: &mut PageWork,
) -> Result<(), ReadStop<ImageFault>>
    requires place { place.old < 2 ^ 62 + 2 ^ 60 }
    requires die { IsDieIn shape.now (D.state die.old) }
    requires sb { sb < shape.now.superblocks }
    requires count { count ≤ shape.now.pages }
    requires blank { (block_of sb (D.state die.old)).pages ≡ [] }
    requires cells { vec_len work.old.levels ≡ page_cells_of (sizes_of shape.now) }
    ensures read { Loads (λ _ pages. (block_of sb (D.state die.new)).pages ≡ pages) (S.left input.old) (S.left input.new)
        (S.faults input.old) (S.faults input.new) place.old place.new result
        (page_fields (page_cells_of (sizes_of shape.now)) count []) }
    ensures place { OnOk result (place.new ≡ place.old + count * (2 * page_cells_of (sizes_of shape.now))) }
    ensures keeps { KeepsPlan (D.state die.old) (D.state die.new) }
    ensures counts { CountsLoad number (D.state die.old).load_count (D.state die.new).load_count result }
    ensures loads { let cells = page_cells_of (sizes_of shape.now) in
        OnOk result (LoadsBlock sb erases count cells (D.state die.old) (D.state die.new)) }
    ensures length { vec_len work.new.levels ≡ vec_len work.old.levels }
{
    match die.load_block(sb, erases) {
        Ok(()) => load_pages(input, place, shape, die, number, sb, count, work),
        Err(DieFailed) => Err(ReadStop::DieFailed { die: number }),
    }
}

/// The blocks of a superblock, one for each die, with so many pages each. The first die has this number in the drive.
pub fn load_blocks<S: Source, D: Die>(
    input: &mut S,
    place: &mut u64,
    shape: &Shape,
    dies: &mut [D],
    first: u8,
    sb: u16,
    erases: u32,
    counts: &[u16],
    work: &mut PageWork,
) -> Result<(), ReadStop<ImageFault>>
    requires place { place.old < 2 ^ 62 + 2 ^ 59 }
    requires dies { All (IsDieIn shape.now) (map D.state dies.old) }
    requires blank { All (λ die. (block_of sb die).pages ≡ []) (map D.state dies.old) }
    requires count { length dies.old ≡ shape.now.dies }
    requires first { first + shape.now.dies ≤ 64 }
    requires sb { sb < shape.now.superblocks }
    requires counts { length counts.now ≡ shape.now.dies }
    requires few { All (λ count. count ≤ shape.now.pages) counts.now }
    requires cells { vec_len work.old.levels ≡ page_cells_of (sizes_of shape.now) }
    ensures read { Loads (λ _ pages. pages_in sb (map D.state dies.new) ≡ pages) (S.left input.old) (S.left input.new)
        (S.faults input.old) (S.faults input.new) place.old place.new result
        (die_fields (page_cells_of (sizes_of shape.now)) counts.now []) }
    ensures place { OnOk result (place.old ≤ place.new) }
    ensures near { OnOk result (place.new ≤ place.old + 2 ^ 31) }
    ensures loaded { BecomeLoaded first (map D.state dies.old) (map D.state dies.new) result }
    ensures loads { let cells = page_cells_of (sizes_of shape.now) in
        OnOk result (EachBecomes (λ die old new. LoadsBlock sb erases (count_at counts.now die) cells old new)
        (map D.state dies.old) (map D.state dies.new)) }
    ensures length { vec_len work.new.levels ≡ vec_len work.old.levels }
{
    for die in 0..dies.len() {
        let number = first + die as u8;
        match load_block(
            input,
            place,
            shape,
            &mut dies[die],
            number,
            sb,
            erases,
            counts[die],
            work,
        ) {
            Ok(()) => {}
            Err(stop) => return Err(stop),
        }
    }
    Ok(())
}

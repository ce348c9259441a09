// The text at the beginning, the number of codewords of a page, and the sizes.
ghost use Rattle.std.specs.Prelude.{◌≡◌, ◌-◌, ◌+◌, ◌^◌, ◌<◌, ◌≤◌, ◌*◌, IfOk, IsTrue};
ghost use Rattle.std.specs.Int.{w8};
ghost use Rattle.ssd_formats.specs.Fields.{number_field, text_field};
ghost use Rattle.ssd_formats.specs.ImageHead.{first_sizes, is_beginning, with_columns, words_field};
ghost use Rattle.ssd_geo.specs.Limits.{is_column_count, is_word_count, most_bytes_of};
ghost use Rattle.image_file.specs.Gives.{Reads, ReadsUpTo};
ghost use Rattle.image_file.specs.Sizes.{AreFirst, AreSizesRead, first_of, size_fields, sizes_read_of};

use crate::field::{read_bytes, read_u8, u8_within, u16_within, u32_within};
use crate::stop::{ImageFault, ReadStop};
use ssd_geo::Shape;
use ssd_io::Source;

/// The number of codewords of a page.
#[derive(Clone, Copy)]
pub struct WordCount {
    pub words: u8,
    /// The place of what follows, which depends on the version.
    pub place: u64,
}

/// The sizes up to the rows of the base matrix.
#[derive(Clone, Copy)]
pub struct FirstSizes {
    pub words: u8,
    pub channels: u8,
    pub dies: u8,
    pub superblocks: u16,
    pub pages: u16,
    pub z: u16,
    pub mb: u8,
}

/// The sizes, and the two numbers among them.
#[derive(Clone, Copy)]
pub struct SizeFields {
    pub shape: Shape,
    /// How many read levels follow.
    pub levels: u8,
    pub iterations: u8,
}

// The text at the beginning, of either version.
fn read_beginning<S: Source>(input: &mut S) -> Result<[u8; 8], ReadStop<ImageFault>>
    ensures { Reads (λ text. text) (S.left input.old) (S.left input.new) (S.faults input.old) (S.faults input.new) 0 8
        result (text_field 8 is_beginning) }
{
    let mut text = [0; 8];
    read_bytes(input, 0, &mut text)?;
    if text == *b"SSDIMG01" || text == *b"SSDIMG02" {
        return Ok(text);
    }
    Err(ReadStop::Fault {
        at: 0,
        fault: ImageFault::Magic,
    })
}

// The number of codewords of a page, in the second version.
fn read_word_count<S: Source>(input: &mut S) -> Result<u8, ReadStop<ImageFault>>
    ensures read { Reads (λ n. n) (S.left input.old) (S.left input.new) (S.faults input.old) (S.faults input.new) 8 9
        result (number_field w8 is_word_count) }
    ensures range { IfOk result (λ words. IsTrue (is_word_count words)) }
{
    let words = u8_within(input, 8, 1, 4)?;
    if words != 3 {
        return Ok(words);
    }
    Err(ReadStop::Fault {
        at: 8,
        fault: ImageFault::Range,
    })
}

/// The text at the beginning and the number of codewords of a page, which in the first version is one and has no field.
#[tactic(auto, unfolding(ssd_formats::specs::ImageHead::words_field))]
pub fn read_words<S: Source>(input: &mut S) -> Result<WordCount, ReadStop<ImageFault>>
    ensures read { ReadsUpTo (λ count. count.words) (λ count. count.place) (S.left input.old) (S.left input.new)
        (S.faults input.old) (S.faults input.new) 0 result words_field }
    ensures range { IfOk result (λ count. IsTrue (is_word_count count.words)) }
    ensures place { IfOk result (λ count. count.place ≤ 9) }
{
    let text = read_beginning(input)?;
    if text == *b"SSDIMG01" {
        return Ok(WordCount { words: 1, place: 8 });
    }
    let words = read_word_count(input)?;
    Ok(WordCount { words, place: 9 })
}

// The sizes up to the rows of the base matrix.
#[tactic(auto, unfolding(ssd_formats::specs::ImageHead::first_sizes))]
fn read_first<S: Source>(
    input: &mut S,
    words: u8,
    place: u64,
) -> Result<FirstSizes, ReadStop<ImageFault>>
    requires words { IsTrue (is_word_count words) }
    requires place { place < 2 ^ 61 }
    ensures read { Reads first_of (S.left input.old) (S.left input.new) (S.faults input.old) (S.faults input.new) place (place + 9)
        result (first_sizes words) }
    ensures range { IfOk result (λ first. AreFirst (first_of first)) }
{
    let channels = u8_within(input, place, 1, 8)?;
    let dies = u8_within(input, place + 1, 3, 8)?;
    let superblocks = u16_within(input, place + 2, 4, 256)?;
    let pages = u16_within(input, place + 4, 2, 256)?;
    let z = u16_within(input, place + 6, 4, 1024)?;
    let mb = u8_within(input, place + 8, 3, 16)?;
    Ok(FirstSizes {
        words,
        channels,
        dies,
        superblocks,
        pages,
        z,
        mb,
    })
}

fn page_cells(words: u8, nb: u8, z: u16) -> u32
    requires words { words ≤ 4 }
    requires nb { nb ≤ 128 }
    requires lifting { z ≤ 1024 }
    ensures value { result ≡ words * (nb * z) }
    ensures bound { result ≤ 524288 }
{
    words as u32 * (nb as u32 * z as u32)
}

fn cells(channels: u8, dies: u8, superblocks: u16, pages: u16, page_cells: u32) -> u64
    requires channels { channels ≤ 8 }
    requires dies { dies ≤ 8 }
    requires superblocks { superblocks ≤ 256 }
    requires pages { pages ≤ 256 }
    requires page_cells { page_cells ≤ 524288 }
    ensures { result ≡ channels * dies * superblocks * pages * page_cells }
{
    channels as u64 * dies as u64 * superblocks as u64 * pages as u64 * page_cells as u64
}

// Whether a base matrix may have so many columns.
fn is_columns(first: FirstSizes, nb: u8) -> bool
    requires { AreFirst (first_of first) }
    ensures { result ≡ is_column_count (with_columns (first_of first) nb) }
{
    if nb <= first.mb || nb > 128 {
        return false;
    }
    let code_bits = nb as u32 * first.z as u32;
    let part_bits = (nb - first.mb) as u32 * first.z as u32;
    let page_cells = page_cells(first.words, nb, first.z);
    let cells = cells(
        first.channels,
        first.dies,
        first.superblocks,
        first.pages,
        page_cells,
    );
    part_bits % 8 == 0 && code_bits % 8 == 0 && cells <= 1 << 28
}

// The base columns.
fn read_columns<S: Source>(
    input: &mut S,
    first: FirstSizes,
    place: u64,
) -> Result<u8, ReadStop<ImageFault>>
    requires first { AreFirst (first_of first) }
    requires place { place < 2 ^ 61 }
    ensures read { Reads (λ n. n) (S.left input.old) (S.left input.new) (S.faults input.old) (S.faults input.new) place (place + 1)
        result (number_field w8 (λ nb. is_column_count (with_columns (first_of first) nb))) }
    ensures range { IfOk result (λ nb. IsTrue (is_column_count (with_columns (first_of first) nb))) }
{
    let nb = read_u8(input, place)?;
    if is_columns(first, nb) {
        return Ok(nb);
    }
    Err(ReadStop::Fault {
        at: place,
        fault: ImageFault::Range,
    })
}

// The most data bytes of a page.
fn data_limit(first: FirstSizes, nb: u8) -> u32
    requires { AreFirst (first_of first) }
    ensures { result ≡ most_bytes_of (with_columns (first_of first) nb) }
{
    let part_bytes = nb.saturating_sub(first.mb) as u32 * first.z as u32 / 8;
    (first.words as u32 * part_bytes).saturating_sub(16)
}

/// The most rows of a channel with so many factory bad superblocks.
pub fn row_limit(superblocks: u16, dies: u8, pages: u16, bad: u32) -> u32
    requires dies { 1 ≤ dies }
    requires most_dies { dies ≤ 8 }
    requires superblocks { superblocks ≤ 256 }
    requires pages { pages ≤ 256 }
    requires bad { bad ≤ 2 ^ 16 }
    ensures { result ≡ (superblocks - (2 + bad)) * (dies - 1) * pages }
{
    let left = (superblocks as u32).saturating_sub(2 + bad);
    left * (dies as u32 - 1) * pages as u32
}

/// The fields up to the rows, where a page has so many codewords.
#[tactic(auto, using(crate::proofs::SizeRanges::sizes_are_within), unfolding(crate::specs::Sizes::size_fields))]
pub fn read_sizes<S: Source>(
    input: &mut S,
    words: u8,
    place: u64,
) -> Result<SizeFields, ReadStop<ImageFault>>
    requires words { IsTrue (is_word_count words) }
    requires place { place < 2 ^ 60 }
    ensures read { Reads sizes_read_of (S.left input.old) (S.left input.new) (S.faults input.old) (S.faults input.new)
        place (place + 20) result (size_fields words) }
    ensures range { IfOk result (λ sizes. AreSizesRead (sizes_read_of sizes)) }
{
    let first = read_first(input, words, place)?;
    let nb = read_columns(input, first, place + 9)?;
    let levels = u8_within(input, place + 10, 1, 16)?;
    let iterations = u8_within(input, place + 11, 1, 64)?;
    let bytes = u32_within(input, place + 12, 1, data_limit(first, nb))?;
    let most_rows = row_limit(first.superblocks, first.dies, first.pages, 0);
    let rows = u32_within(input, place + 16, 1, most_rows)?;
    Ok(SizeFields {
        shape: Shape {
            words: first.words,
            channels: first.channels,
            dies: first.dies,
            superblocks: first.superblocks,
            pages: first.pages,
            z: first.z,
            mb: first.mb,
            nb,
            bytes,
            rows,
        },
        levels,
        iterations,
    })
}

ghost use Rattle.std.specs.Prelude.{◌≡◌, ◌≢◌, ℕ, ◌*◌, ◌+◌, ◌<◌, ◌≤◌, All, MatchBool, None, Some, length, map};
ghost use Rattle.retry_ladder.specs.Decoder.{IsCodeOf};
ghost use Rattle.retry_ladder.specs.Kept.{AreSenses, finds_in, found_or_kept, kept_at, values_in};
ghost use Rattle.ssd_geo.specs.Coding.{code_found, failed_in, word_bytes_in};
ghost use Rattle.ssd_geo.specs.Limits.{code_bytes_of};
ghost use Rattle.ssd_geo.specs.PageWord.{code_in};
ghost use Rattle.ssd_geo.specs.RowRule.{IsWithin};
ghost use Rattle.ssd_geo.specs.Senses.{five_senses, hard_values, soft_values};
ghost use Rattle.ssd_geo.specs.Shape.{sizes_of};

use crate::Decode;
use crate::part::Part;
use page_head::{part_into, put_part};
use soft_sense::{hard_values, soft_values};
use ssd_geo::Shape;

// Writes the values of a codeword in one sense of a page.
fn hard_values_into(shape: &Shape, sense: &[u8], f: u8, bits: &mut [u8], values: &mut [i8])
    requires sense_len { length sense.now ≡ word_bytes_in shape.now }
    requires codeword { f < shape.now.words }
    requires bits_len { length bits.old ≡ 5 * code_bytes_of (sizes_of shape.now) }
    requires values_len { length values.old ≡ 8 * code_bytes_of (sizes_of shape.now) }
    ensures { values.new ≡ hard_values (code_in (sizes_of shape.now) sense.now f) }
{
    // The only codeword is the page's word, so nothing is copied.
    if shape.words == 1 {
        hard_values(sense, values);
        return;
    }
    let code = &mut bits[..shape.code_bytes()];
    part_into(shape, sense, f, code);
    hard_values(code, values);
}

// Takes a codeword out of five senses of a page, which stand one after the other.
fn five_parts_into(shape: &Shape, five: &[u8], f: u8, bits: &mut [u8])
    requires five_len { length five.now ≡ 5 * word_bytes_in shape.now }
    requires codeword { f < shape.now.words }
    requires bits_len { length bits.old ≡ 5 * code_bytes_of (sizes_of shape.now) }
    ensures { five_senses (code_bytes_of (sizes_of shape.now)) bits.new
        ≡ map (λ sense. code_in (sizes_of shape.now) sense f) (five_senses (word_bytes_in shape.now) five.now) }
{
    let page = shape.word_bytes();
    let code = shape.code_bytes();
    for k in 0..5usize {
        part_into(
            shape,
            &five[k * page..k * page + page],
            f,
            &mut bits[k * code..k * code + code],
        );
    }
}

// Writes the values of a codeword in five senses of a page.
fn soft_values_into(shape: &Shape, five: &[u8], f: u8, bits: &mut [u8], values: &mut [i8])
    requires five_len { length five.now ≡ 5 * word_bytes_in shape.now }
    requires codeword { f < shape.now.words }
    requires bits_len { length bits.old ≡ 5 * code_bytes_of (sizes_of shape.now) }
    requires values_len { length values.old ≡ 8 * code_bytes_of (sizes_of shape.now) }
    ensures { values.new ≡ soft_values (code_bytes_of (sizes_of shape.now))
        (map (λ sense. code_in (sizes_of shape.now) sense f) (five_senses (word_bytes_in shape.now) five.now)) }
{
    if shape.words == 1 {
        soft_values(five, shape.code_bytes(), values);
        return;
    }
    five_parts_into(shape, five, f, bits);
    soft_values(bits, shape.code_bytes(), values);
}

// Writes the values of a codeword in the senses of a part.
fn values_into(shape: &Shape, part: Part, senses: &[u8], f: u8, bits: &mut [u8], values: &mut [i8])
    requires senses { AreSenses part (word_bytes_in shape.now) senses.now }
    requires codeword { f < shape.now.words }
    requires bits_len { length bits.old ≡ 5 * code_bytes_of (sizes_of shape.now) }
    requires values_len { length values.old ≡ 8 * code_bytes_of (sizes_of shape.now) }
    ensures values { values.new ≡ values_in (sizes_of shape.now) part senses.now f }
    ensures within { All (IsWithin 127) values.new }
{
    match part {
        Part::Hard => hard_values_into(shape, senses, f, bits, values),
        Part::Soft => soft_values_into(shape, senses, f, bits, values),
    }
}

// Whether the decoder finds a codeword, which then stands in its place of the page's word.
fn is_code_found<C: Decode>(
    decoder: &mut C,
    shape: &Shape,
    f: u8,
    values: &[i8],
    bits: &mut [u8],
    word: &mut [u8],
) -> bool
    requires code { IsCodeOf shape.now (C.matrix decoder.old) }
    requires codeword { f < shape.now.words }
    requires values_len { length values.now ≡ 8 * code_bytes_of (sizes_of shape.now) }
    requires values_within { All (IsWithin 127) values.now }
    requires bits_len { length bits.old ≡ 5 * code_bytes_of (sizes_of shape.now) }
    requires word_len { length word.old ≡ word_bytes_in shape.now }
    ensures answer { let values = values.now in
        let found = code_found (C.matrix decoder.old) (C.limit decoder.old) values in
        MatchBool result (found ≡ Some (code_in (sizes_of shape.now) word.new f)) (found ≡ None) }
    ensures others { (g : ℕ) → g < shape.now.words → g ≢ f
        → code_in (sizes_of shape.now) word.new g ≡ code_in (sizes_of shape.now) word.old g }
    ensures matrix { C.matrix decoder.new ≡ C.matrix decoder.old }
    ensures limit { C.limit decoder.new ≡ C.limit decoder.old }
{
    // The only codeword is the page's word, so nothing is copied.
    if shape.words == 1 {
        return decoder.decode(values, word).is_some();
    }
    let code = &mut bits[..shape.code_bytes()];
    if decoder.decode(values, code).is_none() {
        return false;
    }
    put_part(shape, code, f, word);
    true
}

// Decodes a codeword that isn't kept, and keeps it where it is found.
pub(crate) fn keep_code<C: Decode>(
    decoder: &mut C,
    shape: &Shape,
    part: Part,
    senses: &[u8],
    f: u8,
    bits: &mut [u8],
    values: &mut [i8],
    kept: &mut [bool],
    word: &mut [u8],
)
    requires code { IsCodeOf shape.now (C.matrix decoder.old) }
    requires senses { AreSenses part (word_bytes_in shape.now) senses.now }
    requires codeword { f < shape.now.words }
    requires bits_len { length bits.old ≡ 5 * code_bytes_of (sizes_of shape.now) }
    requires values_len { length values.old ≡ 8 * code_bytes_of (sizes_of shape.now) }
    requires flags { length kept.old ≡ 4 }
    requires word_len { length word.old ≡ word_bytes_in shape.now }
    ensures own { kept_at (sizes_of shape.now) kept.new word.new f
        ≡ found_or_kept (finds_in (sizes_of shape.now) (C.matrix decoder.old) (C.limit decoder.old) part senses.now) f
        (kept_at (sizes_of shape.now) kept.old word.old f) }
    ensures others { (g : ℕ) → g < shape.now.words → g ≢ f
        → kept_at (sizes_of shape.now) kept.new word.new g ≡ kept_at (sizes_of shape.now) kept.old word.old g }
    ensures matrix { C.matrix decoder.new ≡ C.matrix decoder.old }
    ensures limit { C.limit decoder.new ≡ C.limit decoder.old }
{
    if kept[f as usize] {
        return;
    }
    values_into(shape, part, senses, f, bits, values);
    kept[f as usize] = is_code_found(decoder, shape, f, values, bits, word);
}

// How many checks the raw codewords of a sense fail together.
pub(crate) fn failed_of<C: Decode>(decoder: &C, shape: &Shape, sense: &[u8], bits: &mut [u8]) -> u32
    requires code { IsCodeOf shape.now (C.matrix decoder.now) }
    requires sense_len { length sense.now ≡ word_bytes_in shape.now }
    requires bits_len { length bits.old ≡ 5 * code_bytes_of (sizes_of shape.now) }
    ensures { result ≡ failed_in (sizes_of shape.now) (C.matrix decoder.now) sense.now }
{
    if shape.words == 1 {
        return decoder.failed(sense);
    }
    let code = &mut bits[..shape.code_bytes()];
    let mut failed = 0;
    for f in 0..shape.words {
        part_into(shape, sense, f, code);
        failed += decoder.failed(code);
    }
    failed
}

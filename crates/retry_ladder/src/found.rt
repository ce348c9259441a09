ghost use Rattle.std.specs.Prelude.{◌≡◌, ◌+◌, ◌*◌, ◌∷◌, ◌++◌, [], map, MatchBool, false, length, slice_index_or, ◌<◌, ◌≤◌};
ghost use Rattle.std.specs.List.{list_all, range_with_len};
ghost use Rattle.retry_ladder.specs.Decoder.{IsCodeOf, is_expected};
ghost use Rattle.retry_ladder.specs.Kept.{AreSenses, finds_in, kept_in, page_found};
ghost use Rattle.ssd_geo.specs.Coding.{word_bytes_in};
ghost use Rattle.ssd_geo.specs.Ladder.{kept_with, partly, whole};
ghost use Rattle.ssd_geo.specs.Limits.{code_bytes_of};
ghost use Rattle.ssd_geo.specs.Senses.{sense_in};
ghost use Rattle.ssd_geo.specs.Shape.{sizes_of};

use crate::Decode;
use crate::codeword::keep_code;
use crate::part::Part;
use page_head::payload_of;
use ssd_geo::Shape;

// Whether a word has the head of a serial and a row, where one is expected.
pub(crate) fn is_expected(shape: &Shape, head: Option<(u64, u32)>, word: &[u8]) -> bool
    requires { length word.now ≡ word_bytes_in shape.now }
    ensures { result ≡ is_expected shape.now head word.now }
{
    match head {
        None => true,
        Some((serial, row)) => payload_of(shape, word, serial, row).is_some(),
    }
}

// Decodes the codewords of a page that aren't kept, and keeps those that are found.
fn keep_found<C: Decode>(
    decoder: &mut C,
    shape: &Shape,
    part: Part,
    senses: &[u8],
    bits: &mut [u8],
    values: &mut [i8],
    kept: &mut [bool],
    word: &mut [u8],
)
    requires code { IsCodeOf shape.now (C.matrix decoder.old) }
    requires senses { AreSenses part (word_bytes_in shape.now) senses.now }
    requires bits_len { length bits.old ≡ 5 * code_bytes_of (sizes_of shape.now) }
    requires values_len { length values.old ≡ 8 * code_bytes_of (sizes_of shape.now) }
    requires flags { length kept.old ≡ 4 }
    requires word_len { length word.old ≡ word_bytes_in shape.now }
    ensures kept { kept_in (sizes_of shape.now) kept.new word.new
        ≡ kept_with (finds_in (sizes_of shape.now) (C.matrix decoder.old) (C.limit decoder.old) part senses.now) 0
        (kept_in (sizes_of shape.now) kept.old word.old) }
    ensures matrix { C.matrix decoder.new ≡ C.matrix decoder.old }
    ensures limit { C.limit decoder.new ≡ C.limit decoder.old }
{
    for f in 0..shape.words {
        keep_code(decoder, shape, part, senses, f, bits, values, kept, word);
    }
}

// Whether all of a page's codewords are kept.
fn are_kept(words: u8, kept: &[bool]) -> bool
    requires { words ≤ length kept.now }
    ensures { result ≡ list_all (λ f. slice_index_or kept.now f false) (range_with_len 0 words) }
{
    (0..words).all(|f| kept[f as usize])
}

// Decodes the codewords of a page that aren't kept, and answers whether all of them are kept then and
// their word, which stands in `word`, is expected. Where it isn't, none is kept.
pub(crate) fn is_page_found<C: Decode>(
    decoder: &mut C,
    shape: &Shape,
    head: Option<(u64, u32)>,
    part: Part,
    senses: &[u8],
    bits: &mut [u8],
    values: &mut [i8],
    kept: &mut [bool],
    word: &mut [u8],
) -> bool
    requires code { IsCodeOf shape.now (C.matrix decoder.old) }
    requires senses { AreSenses part (word_bytes_in shape.now) senses.now }
    requires bits_len { length bits.old ≡ 5 * code_bytes_of (sizes_of shape.now) }
    requires values_len { length values.old ≡ 8 * code_bytes_of (sizes_of shape.now) }
    requires flags { length kept.old ≡ 4 }
    requires word_len { length word.old ≡ word_bytes_in shape.now }
    ensures answer { let old_kept = kept_in (sizes_of shape.now) kept.old word.old in
        let new_kept = kept_in (sizes_of shape.now) kept.new word.new in
        let found = page_found shape.now (C.matrix decoder.old) (C.limit decoder.old) head part senses.now old_kept in
        MatchBool result (found ≡ whole word.new) (found ≡ partly new_kept) }
    ensures matrix { C.matrix decoder.new ≡ C.matrix decoder.old }
    ensures limit { C.limit decoder.new ≡ C.limit decoder.old }
{
    keep_found(decoder, shape, part, senses, bits, values, kept, word);
    if !are_kept(shape.words, kept) {
        return false;
    }
    if is_expected(shape, head, word) {
        return true;
    }
    kept.fill(false);
    false
}

// Puts a sense after so many others.
pub(crate) fn put_sense(five: &mut [u8], k: u8, bits: &[u8])
    requires room { k < 5 }
    requires five { length five.old ≡ 5 * length bits.now }
    ensures senses { map (sense_in (length bits.now) five.new) (range_with_len 0 (k + 1))
        ≡ map (sense_in (length bits.now) five.old) (range_with_len 0 k) ++ bits.now ∷ [] }
    ensures five_len { length five.new ≡ length five.old }
{
    let from = k as usize * bits.len();
    five[from..from + bits.len()].copy_from_slice(bits);
}

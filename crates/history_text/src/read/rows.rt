// What a row held, and other words with few meanings.
ghost use Rattle.std.specs.Prelude.{◌≡◌, [], ◌∷◌, option_copied};
ghost use Rattle.ssd_formats.specs.KindOfWords.{read_found, one_of as one_of_words, read_row};
ghost use Rattle.history_text.specs.Pieces.{pieces_left};

use crate::read::addresses::slot;
use crate::read::numbers::number_64;
use crate::read::pieces::{SPACE, next_piece, three_pieces, two_pieces};
use ssd_geo::Row;

/// Whether a word is the first or the second of two.
pub fn one_of(first: &[u8], second: &[u8], word: &[u8]) -> Option<bool>
    ensures { result ≡ one_of_words first.now second.now word.now }
{
    if word == first {
        return Some(true);
    }
    if word == second { Some(false) } else { None }
}

// What a row held, in one word.
fn without_page(word: &[u8]) -> Option<Row>
    ensures { result ≡ read_row (word.now ∷ []) }
{
    let empty = one_of(b"empty", b"lost", word)?;
    Some(if empty { Row::Empty } else { Row::Lost })
}

fn page(word: &[u8], slot_at: &[u8], serial_at: &[u8]) -> Option<Row>
    ensures { result ≡ read_row (word.now ∷ slot_at.now ∷ serial_at.now ∷ []) }
{
    if word != b"page".as_slice() {
        return None;
    }
    let slot = slot(slot_at)?;
    let serial = number_64(serial_at)?;
    Some(Row::Page { slot, serial })
}

/// What a row held.
#[tactic(auto, using(crate::proofs::RowWords::row_is))]
pub fn row(words: Option<&[u8]>) -> Option<Row>
    ensures { result ≡ read_row (pieces_left 32 (option_copied words.entry)) }
{
    let (word, behind) = next_piece(SPACE, words)?;
    if behind.is_none() {
        return without_page(word);
    }
    let (slot, serial) = two_pieces(SPACE, behind)?;
    page(word, slot, serial)
}

/// What a look found, and whether the stripe of a page found was closed.
#[tactic(auto, using(crate::proofs::RowWords::found_is))]
pub fn found(words: Option<&[u8]>) -> Option<(Row, bool)>
    ensures { result ≡ read_found (pieces_left 32 (option_copied words.entry)) }
{
    let (word, behind) = next_piece(SPACE, words)?;
    if behind.is_none() {
        return Some((without_page(word)?, false));
    }
    let (slot, serial, closed) = three_pieces(SPACE, behind)?;
    let row = page(word, slot, serial)?;
    let closed = one_of(b"closed", b"open", closed)?;
    Some((row, closed))
}

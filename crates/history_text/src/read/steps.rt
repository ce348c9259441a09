// The words behind the name of a step.
ghost use Rattle.std.specs.Prelude.{◌≡◌, option_copied};
ghost use Rattle.ssd_formats.specs.KindOfWords.{read_victim};
ghost use Rattle.history_text.specs.Pieces.{pieces_left};
ghost use Rattle.history_text.specs.StepWords.{aged_in, bad_erase_in, bad_slot_in, number_in};
ghost use Rattle.history_text.specs.StepWords.{sensed_in, slotted_in, superblock_in, worn_in};

use crate::read::addresses::{block, place, slot};
use crate::read::numbers::{level, number_8, number_16, number_32};
use crate::read::pieces::{SPACE, four_pieces, only_piece, three_pieces, two_pieces};
use crate::read::rows::one_of;
use ssd_geo::{Place, Slot};

/// One number: a row, or the position of a look.
pub fn number(words: Option<&[u8]>) -> Option<u32>
    ensures { result ≡ number_in (pieces_left 32 (option_copied words.entry)) }
{
    number_32(only_piece(SPACE, words)?)
}

pub fn superblock(words: Option<&[u8]>) -> Option<u16>
    ensures { result ≡ superblock_in (pieces_left 32 (option_copied words.entry)) }
{
    number_16(only_piece(SPACE, words)?)
}

/// The superblock of a victim, or that there is none.
pub fn victim(word: &[u8]) -> Option<Option<u16>>
    ensures { result ≡ read_victim word.now }
{
    if word == b"-".as_slice() {
        return Some(None);
    }
    let sb = number_16(word)?;
    Some(Some(sb))
}

/// A row or a look, and a slot.
pub fn slotted(words: Option<&[u8]>) -> Option<(u32, Slot)>
    ensures { result ≡ slotted_in (pieces_left 32 (option_copied words.entry)) }
{
    let (number, at) = two_pieces(SPACE, words)?;
    let number = number_32(number)?;
    let slot = slot(at)?;
    Some((number, slot))
}

/// A look, a place and a level.
pub fn sensed(words: Option<&[u8]>) -> Option<(u32, Place, i16)>
    ensures { result ≡ sensed_in (pieces_left 32 (option_copied words.entry)) }
{
    let (look, page, word) = three_pieces(SPACE, words)?;
    let look = number_32(look)?;
    let place = place(page)?;
    let level = level(word)?;
    Some((look, place, level))
}

/// A row or a look, and whether the channel was worn; else the other word stands.
pub fn worn(other: &[u8], words: Option<&[u8]>) -> Option<(u32, bool)>
    ensures { result ≡ worn_in other.now (pieces_left 32 (option_copied words.entry)) }
{
    let (number, word) = two_pieces(SPACE, words)?;
    let number = number_32(number)?;
    let worn = one_of(b"readonly", other, word)?;
    Some((number, worn))
}

/// A row or a look, the slot that failed, the die, and whether that had a fault.
pub fn bad_slot(words: Option<&[u8]>) -> Option<(u32, Slot, u8, bool)>
    ensures { result ≡ bad_slot_in (pieces_left 32 (option_copied words.entry)) }
{
    let (number, at, die, word) = four_pieces(SPACE, words)?;
    let number = number_32(number)?;
    let slot = slot(at)?;
    let die = number_8(die)?;
    let fault = one_of(b"fault", b"fail", word)?;
    Some((number, slot, die, fault))
}

/// The superblock whose erase failed, the die, and whether that had a fault.
pub fn bad_erase(words: Option<&[u8]>) -> Option<(u16, u8, bool)>
    ensures { result ≡ bad_erase_in (pieces_left 32 (option_copied words.entry)) }
{
    let (sb, die, word) = three_pieces(SPACE, words)?;
    let sb = number_16(sb)?;
    let die = number_8(die)?;
    let fault = one_of(b"fault", b"fail", word)?;
    Some((sb, die, fault))
}

/// The die and the superblock of a block, and an amount.
pub fn aged(words: Option<&[u8]>) -> Option<(u8, u16, u16)>
    ensures { result ≡ aged_in (pieces_left 32 (option_copied words.entry)) }
{
    let (at, amount) = two_pieces(SPACE, words)?;
    let (die, sb) = block(at)?;
    let amount = number_16(amount)?;
    Some((die, sb, amount))
}

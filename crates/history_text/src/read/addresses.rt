// Words of numbers with full stops between: slots, places, blocks and calls.
ghost use Rattle.std.specs.Prelude.{◌≡◌};
ghost use Rattle.ssd_formats.specs.KindOfWords.{read_block, read_place, read_slot, read_tag};

use crate::read::numbers::{number_8, number_16, number_32};
use crate::read::pieces::{FULL_STOP, three_pieces, two_pieces};
use ssd_geo::{Place, Slot, Tag};

#[tactic(auto, using(crate::proofs::AddressWords::slot_is))]
pub fn slot(word: &[u8]) -> Option<Slot>
    ensures { result ≡ read_slot word.now }
{
    let (sb, index) = two_pieces(FULL_STOP, Some(word))?;
    let sb = number_16(sb)?;
    let index = number_32(index)?;
    Some(Slot { sb, index })
}

#[tactic(auto, using(crate::proofs::AddressWords::place_is))]
pub fn place(word: &[u8]) -> Option<Place>
    ensures { result ≡ read_place word.now }
{
    let (die, sb, page) = three_pieces(FULL_STOP, Some(word))?;
    let die = number_8(die)?;
    let sb = number_16(sb)?;
    let page = number_16(page)?;
    Some(Place { die, sb, page })
}

/// The die and the superblock of a block.
#[tactic(auto, using(crate::proofs::AddressWords::block_is))]
pub fn block(word: &[u8]) -> Option<(u8, u16)>
    ensures { result ≡ read_block word.now }
{
    let (die, sb) = two_pieces(FULL_STOP, Some(word))?;
    let die = number_8(die)?;
    let sb = number_16(sb)?;
    Some((die, sb))
}

#[tactic(auto, using(crate::proofs::AddressWords::tag_is))]
pub fn tag(word: &[u8]) -> Option<Tag>
    ensures { result ≡ read_tag word.now }
{
    let (actor, call) = two_pieces(FULL_STOP, Some(word))?;
    let actor = number_8(actor)?;
    let call = number_32(call)?;
    Some(Tag { actor, call })
}

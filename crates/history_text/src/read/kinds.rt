// What a step did: first its name, and then the words that are due.
ghost use Rattle.std.specs.Prelude.{◌≡◌, ◌∷◌, option_copied};
ghost use Rattle.ssd_formats.specs.KindOfWords.{read_bad, read_changed, read_fault, kind_of_words, read_look};
ghost use Rattle.ssd_formats.specs.KindOfWords.{read_note};
ghost use Rattle.history_text.specs.Pieces.{pieces_left};
ghost use Rattle.history_text.specs.StepWords.{block_step_of, copy_step_of, other_step_of};

use crate::read::numbers::{number_16, number_32};
use crate::read::pieces::{SPACE, five_pieces, next_piece};
use crate::read::rows::{found, row};
use crate::read::steps::{
    aged, bad_erase, bad_slot, number, sensed, slotted, superblock, victim, worn,
};
use ssd_geo::Kind;

#[tactic(auto, using(crate::proofs::StepParts::look_is))]
fn look(words: Option<&[u8]>) -> Option<Kind>
    ensures { result ≡ read_look (pieces_left 32 (option_copied words.entry)) }
{
    let (row, words) = next_piece(SPACE, words)?;
    let row = number_32(row)?;
    let (found, closed) = found(words)?;
    Some(Kind::Look { row, found, closed })
}

#[tactic(auto, using(crate::proofs::StepParts::changed_is))]
fn changed(words: Option<&[u8]>) -> Option<Kind>
    ensures { result ≡ read_changed (pieces_left 32 (option_copied words.entry)) }
{
    let (at, words) = next_piece(SPACE, words)?;
    let at = number_32(at)?;
    let found = row(words)?;
    Some(Kind::Changed { at, found })
}

#[tactic(auto, using(crate::proofs::StepParts::note_is))]
fn note(words: Option<&[u8]>) -> Option<Kind>
    ensures { result ≡ read_note (pieces_left 32 (option_copied words.entry)) }
{
    let (free, sb, live, pins, garbage) = five_pieces(SPACE, words)?;
    let free = number_16(free)?;
    let victim = victim(sb)?;
    let live = number_32(live)?;
    let pins = number_32(pins)?;
    let garbage = number_16(garbage)?;
    Some(Kind::Note {
        free,
        victim,
        live,
        pins,
        garbage,
    })
}

// A program or an erase that failed.
#[tactic(auto, using(crate::proofs::StepParts::bad_slot_is, crate::proofs::StepParts::bad_erase_is))]
fn bad_named(name: &[u8], words: Option<&[u8]>) -> Option<Kind>
    ensures { result ≡ read_bad (name.now ∷ pieces_left 32 (option_copied words.entry)) }
{
    if name == b"write".as_slice() {
        let (row, slot, die, fault) = bad_slot(words)?;
        return Some(Kind::BadWrite {
            row,
            slot,
            die,
            fault,
        });
    }
    if name == b"copy".as_slice() {
        let (at, slot, die, fault) = bad_slot(words)?;
        return Some(Kind::BadCopy {
            at,
            slot,
            die,
            fault,
        });
    }
    if name == b"erase".as_slice() {
        let (sb, die, fault) = bad_erase(words)?;
        return Some(Kind::BadErase { sb, die, fault });
    }
    None
}

// A die's fault in a sense or an ageing.
#[tactic(auto, using(crate::proofs::StepParts::sensed_is, crate::proofs::StepParts::aged_is))]
fn fault_named(name: &[u8], words: Option<&[u8]>) -> Option<Kind>
    ensures { result ≡ read_fault (name.now ∷ pieces_left 32 (option_copied words.entry)) }
{
    if name == b"sense".as_slice() {
        let (at, place, level) = sensed(words)?;
        return Some(Kind::FaultSense { at, place, level });
    }
    if name == b"age".as_slice() {
        let (die, sb, amount) = aged(words)?;
        return Some(Kind::FaultAge { die, sb, amount });
    }
    None
}

#[tactic(auto, using(crate::proofs::StepParts::bad_is))]
fn bad(words: Option<&[u8]>) -> Option<Kind>
    ensures { result ≡ read_bad (pieces_left 32 (option_copied words.entry)) }
{
    let (name, words) = next_piece(SPACE, words)?;
    bad_named(name, words)
}

#[tactic(auto, using(crate::proofs::StepParts::fault_is))]
fn fault(words: Option<&[u8]>) -> Option<Kind>
    ensures { result ≡ read_fault (pieces_left 32 (option_copied words.entry)) }
{
    let (name, words) = next_piece(SPACE, words)?;
    fault_named(name, words)
}

#[tactic(auto, using(crate::proofs::StepParts::worn_is))]
fn other_step(name: &[u8], words: Option<&[u8]>) -> Option<Kind>
    ensures { result ≡ other_step_of name.now (pieces_left 32 (option_copied words.entry)) }
{
    if name == b"refused".as_slice() {
        let (row, worn) = worn(b"full", words)?;
        return Some(Kind::Refused { row, worn });
    }
    if name == b"fault".as_slice() {
        return fault(words);
    }
    if name == b"note".as_slice() {
        return note(words);
    }
    None
}

// A step of superblocks or blocks, or another.
#[tactic(auto, using(crate::proofs::StepParts::superblock_is, crate::proofs::StepParts::aged_is))]
fn block_step(name: &[u8], words: Option<&[u8]>) -> Option<Kind>
    ensures { result ≡ block_step_of name.now (pieces_left 32 (option_copied words.entry)) }
{
    if name == b"pick".as_slice() {
        let sb = superblock(words)?;
        return Some(Kind::Pick { sb });
    }
    if name == b"erase".as_slice() {
        let sb = superblock(words)?;
        return Some(Kind::Erase { sb });
    }
    if name == b"bad".as_slice() {
        return bad(words);
    }
    if name == b"age".as_slice() {
        let (die, sb, amount) = aged(words)?;
        return Some(Kind::Age { die, sb, amount });
    }
    other_step(name, words)
}

// A step of a copy, or another.
#[tactic(auto, using(crate::proofs::StepParts::copy_steps))]
fn copy_step(name: &[u8], words: Option<&[u8]>) -> Option<Kind>
    ensures { result ≡ copy_step_of name.now (pieces_left 32 (option_copied words.entry)) }
{
    if name == b"move".as_slice() {
        let (at, slot) = slotted(words)?;
        return Some(Kind::Move { at, slot });
    }
    if name == b"changed".as_slice() {
        return changed(words);
    }
    if name == b"condemn".as_slice() {
        let at = number(words)?;
        return Some(Kind::Condemn { at });
    }
    if name == b"stay".as_slice() {
        let (at, worn) = worn(b"noroom", words)?;
        return Some(Kind::Stay { at, worn });
    }
    block_step(name, words)
}

// A step of a read, a write or a trim, or another.
#[tactic(auto, using(crate::proofs::StepParts::host_steps))]
fn step(name: &[u8], words: Option<&[u8]>) -> Option<Kind>
    ensures { result ≡ kind_of_words (name.now ∷ pieces_left 32 (option_copied words.entry)) }
{
    if name == b"look".as_slice() {
        return look(words);
    }
    if name == b"sense".as_slice() {
        let (at, place, level) = sensed(words)?;
        return Some(Kind::Sense { at, place, level });
    }
    if name == b"leave".as_slice() {
        let at = number(words)?;
        return Some(Kind::Leave { at });
    }
    if name == b"write".as_slice() {
        let (row, slot) = slotted(words)?;
        return Some(Kind::Write { row, slot });
    }
    if name == b"trim".as_slice() {
        let row = number(words)?;
        return Some(Kind::Trim { row });
    }
    copy_step(name, words)
}

/// What a step did, by its words.
#[tactic(auto, using(crate::proofs::StepParts::kind_is))]
pub fn kind(words: Option<&[u8]>) -> Option<Kind>
    ensures { result ≡ kind_of_words (pieces_left 32 (option_copied words.entry)) }
{
    let (name, words) = next_piece(SPACE, words)?;
    step(name, words)
}

// The words of what a step did.
ghost use Rattle.std.specs.Prelude.{◌≡◌, [], ◌∷◌, codes, decimal, map, if◌then◌else◌};
ghost use Rattle.ssd_formats.specs.EntryText.{kind_words as words_of_kind};
ghost use Rattle.ssd_formats.specs.EntryText.{fault_word, slot_text, victim_word as text_of_victim};
ghost use Rattle.history_text.specs.WordText.{word_text};

use crate::word::Word;
use crate::words::Words;
use ssd_geo::{Kind, Place, Row, Slot};

/// The words of what a step did: its name, and what there is to tell.
pub fn kind_words(kind: Kind) -> Words
    ensures { map word_text result ≡ words_of_kind kind }
{
    match kind {
        Kind::Look { row, found, closed } => look(row, found, closed),
        Kind::Sense { at, place, level } => sense(at, place, level),
        Kind::Leave { at } => numbered(b"leave", at),
        Kind::Write { row, slot } => slotted(b"write", row, slot),
        Kind::Trim { row } => numbered(b"trim", row),
        Kind::Move { at, slot } => slotted(b"move", at, slot),
        Kind::Changed { at, found } => changed(at, found),
        Kind::Condemn { at } => numbered(b"condemn", at),
        Kind::Stay { at, worn } => worn_or(b"stay", at, worn, b"noroom"),
        Kind::Pick { sb } => numbered(b"pick", sb as u32),
        Kind::Erase { sb } => numbered(b"erase", sb as u32),
        Kind::BadWrite {
            row,
            slot,
            die,
            fault,
        } => bad_slot(b"write", row, slot, die, fault),
        Kind::BadCopy {
            at,
            slot,
            die,
            fault,
        } => bad_slot(b"copy", at, slot, die, fault),
        Kind::BadErase { sb, die, fault } => bad_erase(sb, die, fault),
        Kind::Age { die, sb, amount } => age(die, sb, amount),
        Kind::Refused { row, worn } => worn_or(b"refused", row, worn, b"full"),
        Kind::FaultSense { at, place, level } => fault_sense(at, place, level),
        Kind::FaultAge { die, sb, amount } => fault_age(die, sb, amount),
        Kind::Note {
            free,
            victim,
            live,
            pins,
            garbage,
        } => note(free, victim, live, pins, garbage),
    }
}

// A step that tells one number: a row, a look or a superblock.
fn numbered(name: &'static [u8], n: u32) -> Words
    ensures { map word_text result ≡ name.now ∷ decimal n ∷ [] }
{
    Words::two(Word::Name(name), number(n))
}

// A step that tells a row or a look, and a slot.
fn slotted(name: &'static [u8], n: u32, slot: Slot) -> Words
    ensures { map word_text result ≡ name.now ∷ decimal n ∷ slot_text slot ∷ [] }
{
    Words::three(Word::Name(name), number(n), Word::Address(slot))
}

// A step that tells a row or a look, and whether the channel was worn; else the other word stands.
fn worn_or(name: &'static [u8], n: u32, worn: bool, other: &'static [u8]) -> Words
    ensures { map word_text result ≡
        name.now ∷ decimal n ∷ (if worn then codes "readonly" else other.now) ∷ [] }
{
    Words::three(
        Word::Name(name),
        number(n),
        either(worn, b"readonly", other),
    )
}

fn look(row: u32, found: Row, closed: bool) -> Words
    ensures { map word_text result ≡ words_of_kind (Kind.Look row found closed) }
{
    match found {
        Row::Empty => Words::three(Word::Name(b"look"), number(row), Word::Name(b"empty")),
        Row::Lost => Words::three(Word::Name(b"look"), number(row), Word::Name(b"lost")),
        Row::Page { slot, serial } => Words::six(
            Word::Name(b"look"),
            number(row),
            Word::Name(b"page"),
            Word::Address(slot),
            Word::Number(serial),
            either(closed, b"closed", b"open"),
        ),
    }
}

fn changed(at: u32, found: Row) -> Words
    ensures { map word_text result ≡ words_of_kind (Kind.Changed at found) }
{
    match found {
        Row::Empty => Words::three(Word::Name(b"changed"), number(at), Word::Name(b"empty")),
        Row::Lost => Words::three(Word::Name(b"changed"), number(at), Word::Name(b"lost")),
        Row::Page { slot, serial } => Words::five(
            Word::Name(b"changed"),
            number(at),
            Word::Name(b"page"),
            Word::Address(slot),
            Word::Number(serial),
        ),
    }
}

fn sense(at: u32, place: Place, level: i16) -> Words
    ensures { map word_text result ≡ words_of_kind (Kind.Sense at place level) }
{
    Words::four(
        Word::Name(b"sense"),
        number(at),
        Word::At(place),
        Word::Level(level),
    )
}

fn fault_sense(at: u32, place: Place, level: i16) -> Words
    ensures { map word_text result ≡ words_of_kind (Kind.FaultSense at place level) }
{
    Words::five(
        Word::Name(b"fault"),
        Word::Name(b"sense"),
        number(at),
        Word::At(place),
        Word::Level(level),
    )
}

fn age(die: u8, sb: u16, amount: u16) -> Words
    ensures { map word_text result ≡ words_of_kind (Kind.Age die sb amount) }
{
    Words::three(
        Word::Name(b"age"),
        Word::Block { die, sb },
        number(amount as u32),
    )
}

fn fault_age(die: u8, sb: u16, amount: u16) -> Words
    ensures { map word_text result ≡ words_of_kind (Kind.FaultAge die sb amount) }
{
    Words::four(
        Word::Name(b"fault"),
        Word::Name(b"age"),
        Word::Block { die, sb },
        number(amount as u32),
    )
}

// A program that failed: of a write, by its row, or of a copy, by its look.
fn bad_slot(of: &'static [u8], n: u32, slot: Slot, die: u8, fault: bool) -> Words
    ensures { map word_text result ≡
        codes "bad" ∷ of.now ∷ decimal n ∷ slot_text slot ∷ decimal die ∷ fault_word fault ∷ [] }
{
    Words::six(
        Word::Name(b"bad"),
        Word::Name(of),
        number(n),
        Word::Address(slot),
        number(die as u32),
        either(fault, b"fault", b"fail"),
    )
}

fn bad_erase(sb: u16, die: u8, fault: bool) -> Words
    ensures { map word_text result ≡ words_of_kind (Kind.BadErase sb die fault) }
{
    Words::five(
        Word::Name(b"bad"),
        Word::Name(b"erase"),
        number(sb as u32),
        number(die as u32),
        either(fault, b"fault", b"fail"),
    )
}

fn note(free: u16, victim: Option<u16>, live: u32, pins: u32, garbage: u16) -> Words
    ensures { map word_text result ≡ words_of_kind (Kind.Note free victim live pins garbage) }
{
    Words::six(
        Word::Name(b"note"),
        number(free as u32),
        victim_word(victim),
        number(live),
        number(pins),
        number(garbage as u32),
    )
}

fn victim_word(victim: Option<u16>) -> Word
    ensures { word_text result ≡ text_of_victim victim }
{
    match victim {
        Some(sb) => number(sb as u32),
        None => Word::Name(b"-"),
    }
}

fn number(n: u32) -> Word
    ensures { word_text result ≡ decimal n }
{
    Word::Number(n as u64)
}

fn either(test: bool, yes: &'static [u8], no: &'static [u8]) -> Word
    ensures { word_text result ≡ (if test then yes.now else no.now) }
{
    Word::Name(if test { yes } else { no })
}

ghost use Rattle.std.specs.Prelude.{◌≡◌, ℕ, ◌+◌, ◌≤◌, not, IfOk, IsTrue, Some, length};
ghost use Rattle.std.specs.List.{list_all};
ghost use Rattle.retry_ladder.specs.Decoder.{IsCodeOf, is_expected};
ghost use Rattle.retry_ladder.specs.Running.{at_page, at_rest, has_none, place_start};
ghost use Rattle.retry_ladder.specs.View.{IsAnswerOf, IsAskOf, IsLookIn, IsOther, IsPage, place_in, places_from, run_at, state_in, with_sense};
ghost use Rattle.retry_ladder.specs.Ready.{HoldsAt};
ghost use Rattle.ssd_geo.specs.BaseMatrix.{BaseMatrix};
ghost use Rattle.ssd_geo.specs.Coding.{coding_in, data_in, word_bytes_in};
ghost use Rattle.ssd_geo.specs.Ladder.{has_answer, is_recovered, word_recovered};
ghost use Rattle.ssd_geo.specs.Limits.{is_level};

use crate::found::is_expected;
use crate::place_work::PlaceWork;
use crate::step::Step;
use crate::{Answer, Ask, Decode};
use die_parity::StripeSum;
use page_head::payload_of;
use ssd_geo::{Items, Look, Memory, Place, Shape, Slot};
use std::alloc::Global;
use std::marker::Model;

// What a ladder is at.
#[derive(Clone, Copy, Debug, PartialEq, Eq)]
enum Stage {
    // The page itself.
    Page,
    // The page of this die in the same stripe.
    Other { die: u8 },
    // The page was recovered at this rung.
    Found { rung: u8 },
    // The page can't be read.
    Failed,
}

/// Read retry of one page at a time: it asks for senses, in order, until it has an answer. It
/// stands for the look that it began with and the senses that it was fed since, and takes no memory
/// for them.
#[derive(Drop)]
pub struct Ladder {
    work: PlaceWork,
    sum: StripeSum,
    look: Look,
    stage: Stage,
}

impl Model for Ladder {
    ghost use Rattle.retry_ladder.specs.View.{LadderView, ladder_view};
    ghost use Rattle.retry_ladder.specs.Ready.{IsWhole};

    ghost Value = { LadderView };

    ghost view = { ladder_view };

    ghost invariant = { IsWhole };
}

impl Ladder {
    /// Takes all the memory that ladders of this shape need.
    pub fn new(
        alloc: Global,
        shape: Shape,
        read_levels: Items<i16>,
        step: u16,
    ) -> Result<Ladder, Memory>
        requires few_levels { length read_levels ≤ 16 }
        requires levels { IsTrue (list_all is_level read_levels) }
        requires step { step ≤ 2047 }
        ensures shape { IfOk result (λ ladder. ladder.shape ≡ shape) }
        ensures levels { IfOk result (λ ladder. ladder.levels ≡ read_levels) }
        ensures step { IfOk result (λ ladder. ladder.step ≡ step) }
        ensures run { IfOk result (λ ladder. ladder.run ≡ has_none) }
    {
        let sum = vec![in alloc; 0u8; shape.word_bytes()].map_err(|_| Memory)?;
        let work = PlaceWork::new(alloc, shape, read_levels, step)?;
        Ok(Ladder {
            work,
            sum: StripeSum::new(sum),
            look: Look {
                at: 0,
                row: 0,
                slot: Slot { sb: 0, index: 0 },
                serial: 0,
                closed: false,
            },
            stage: Stage::Failed,
        })
    }

    /// Begins the ladder of a look.
    pub fn begin(&mut self, look: &Look)
        requires { IsLookIn self.old.shape look.now }
        ensures { self.new
            ≡ record self.old {
              look = look.now;
              run = at_page (place_start self.old.levels self.old.shape.words);
            } }
    {
        self.work.begin();
        self.look = *look;
        self.stage = Stage::Page;
    }

    /// The sense that is wanted next, if there is no answer yet.
    pub fn ask(&self) -> Ask
        ensures { IsAskOf (state_in self.now) result }
    {
        match self.stage {
            Stage::Page => Ask::At {
                place: self.place(),
                level: self.work.level(),
            },
            Stage::Other { die } => Ask::At {
                place: Place {
                    die,
                    ..self.place()
                },
                level: self.work.level(),
            },
            Stage::Found { .. } | Stage::Failed => Ask::Done,
        }
    }

    /// Takes the sense that was asked for.
    pub fn feed<C: Decode>(&mut self, decoder: &mut C, bits: &[u8])
        requires code { IsCodeOf self.old.shape (C.matrix decoder.old) }
        requires open { IsTrue (not (has_answer (state_in self.old))) }
        requires bits { length bits.now ≡ word_bytes_in self.old.shape }
        ensures fed { self.new
            ≡ with_sense self.old (C.matrix decoder.old) (C.limit decoder.old) bits.now }
        ensures matrix { C.matrix decoder.new ≡ C.matrix decoder.old }
        ensures limit { C.limit decoder.new ≡ C.limit decoder.old }
    {
        match self.stage {
            Stage::Page => self.feed_page(decoder, bits),
            Stage::Other { die } => self.feed_other(decoder, bits, die),
            Stage::Found { .. } | Stage::Failed => {}
        }
    }

    /// How the ladder ended.
    pub fn answer(&self) -> Answer
        requires { IsTrue (has_answer (state_in self.now)) }
        ensures { IsAnswerOf (state_in self.now) result }
    {
        match self.stage {
            Stage::Found { rung } => Answer::Recovered { rung },
            _ => Answer::Uncorrectable,
        }
    }

    /// The word of the page that was recovered.
    pub fn word(&self) -> &[u8]
        requires { IsTrue (is_recovered (state_in self.now)) }
        ensures word { result.now ≡ word_recovered (state_in self.now) }
        ensures length { length result.now ≡ word_bytes_in self.now.shape }
    {
        self.work.word()
    }

    /// The data bytes of the page that was recovered.
    pub fn bytes(&self) -> &[u8]
        requires { IsTrue (is_recovered (state_in self.now)) }
        ensures { Some result.now
            ≡ data_in self.now.shape self.now.look.serial self.now.look.row
            (word_recovered (state_in self.now)) }
    {
        payload_of(
            self.work.shape(),
            self.work.word(),
            self.look.serial,
            self.look.row,
        )
        .unwrap()
    }

    // The place of the page.
    fn place(&self) -> Place
        requires { IsLookIn self.now.shape self.now.look }
        ensures { result ≡ place_in self.now.shape self.now.look }
    {
        self.work.shape().place_of(self.look.slot)
    }

    // One more sense of the page itself.
    fn feed_page<C: Decode>(&mut self, decoder: &mut C, bits: &[u8])
        requires page { IsPage self.old.run }
        requires code { IsCodeOf self.old.shape (C.matrix decoder.old) }
        requires bits { length bits.now ≡ word_bytes_in self.old.shape }
        ensures fed { self.new
            ≡ with_sense self.old (C.matrix decoder.old) (C.limit decoder.old) bits.now }
        ensures matrix { C.matrix decoder.new ≡ C.matrix decoder.old }
        ensures limit { C.limit decoder.new ≡ C.limit decoder.old }
    {
        let head = Some((self.look.serial, self.look.row));
        match self.work.feed(decoder, bits, head) {
            Step::GoesOn => {}
            Step::Finds { rung } => self.stage = Stage::Found { rung },
            Step::Misses => {
                if self.look.closed {
                    self.sum.clear();
                    self.stage = stage_from(&mut self.work, &self.sum, &self.look, 0);
                } else {
                    self.stage = Stage::Failed;
                }
            }
        }
    }

    // One more sense of another page of the stripe. Any word counts whose codewords are all kept.
    fn feed_other<C: Decode>(&mut self, decoder: &mut C, bits: &[u8], die: u8)
        requires other { IsOther self.old.run die }
        requires code { IsCodeOf self.old.shape (C.matrix decoder.old) }
        requires bits { length bits.now ≡ word_bytes_in self.old.shape }
        ensures fed { self.new
            ≡ with_sense self.old (C.matrix decoder.old) (C.limit decoder.old) bits.now }
        ensures matrix { C.matrix decoder.new ≡ C.matrix decoder.old }
        ensures limit { C.limit decoder.new ≡ C.limit decoder.old }
    {
        match self.work.feed(decoder, bits, None) {
            Step::GoesOn => {}
            Step::Finds { .. } => {
                self.sum.add(self.work.word());
                self.stage = stage_from(&mut self.work, &self.sum, &self.look, die + 1);
            }
            Step::Misses => self.stage = Stage::Failed,
        }
    }
}

// Goes to the first other page of the stripe whose die isn't below this one, or takes the sum of
// all of them.
fn stage_from(work: &mut PlaceWork, sum: &StripeSum, look: &Look, die: u8) -> Stage
    requires look { IsLookIn work.old.shape look.now }
    requires die { die ≤ work.old.shape.dies }
    requires sum { length sum.now ≡ word_bytes_in work.old.shape }
    ensures run { (matrix : BaseMatrix) (limit : ℕ)
        → run_at result work.old.shape.dies (place_in work.old.shape look.now) work.new sum.now
        ≡ at_rest (coding_in work.old.shape work.old.levels work.old.step matrix limit)
        (is_expected work.old.shape (Some (look.now.serial, look.now.row)))
        (places_from work.old.shape.dies (place_in work.old.shape look.now) die) sum.now }
    ensures holds { HoldsAt result work.old.shape look.now work.new.word }
    ensures same { work.new ≡ record work.old { run = work.new.run; word = work.new.word } }
{
    let own = work.shape().place_of(look.slot).die;
    let next = if die == own { die + 1 } else { die };
    if next < work.shape().dies {
        work.begin();
        return Stage::Other { die: next };
    }
    if !is_expected(work.shape(), Some((look.serial, look.row)), sum.bytes()) {
        return Stage::Failed;
    }
    work.set_word(sum.bytes());
    Stage::Found {
        rung: work.levels() + 1,
    }
}

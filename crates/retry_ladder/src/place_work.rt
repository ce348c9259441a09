ghost use Rattle.std.specs.Prelude.{◌≡◌, ◌*◌, ◌≤◌, ◌<◌, IfOk, IsTrue, Option, length, Some};
ghost use Rattle.std.specs.List.{list_all};
ghost use Rattle.retry_ladder.specs.Decoder.{IsCodeOf};
ghost use Rattle.retry_ladder.specs.Running.{better, center_of, level_wanted, place_start};
ghost use Rattle.retry_ladder.specs.Work.{IsStepTo, step_with};
ghost use Rattle.ssd_geo.specs.Coding.{word_bytes_in};
ghost use Rattle.ssd_geo.specs.Limits.{is_level};

use crate::Decode;
use crate::best::{better, center_of, soft_level};
use crate::codeword::failed_of;
use crate::found::{is_page_found, put_sense};
use crate::part::Part;
use crate::step::Step;
use ssd_geo::{Items, Memory, Shape};
use std::alloc::Global;
use std::marker::Model;

// The work on one place: hard values at each read level, then soft values around the best of them.
// The codewords that were found are kept in the page's word, each with its flag, and the others are
// decoded at each sense.
#[derive(Drop)]
pub(crate) struct PlaceWork {
    shape: Shape,
    read_levels: Items<i16>,
    step: u16,
    rung: u8,
    best: Option<(i16, u32)>,
    count: u8,
    kept: [bool; 4],
    five: Vec<u8>,
    bits: Vec<u8>,
    values: Vec<i8>,
    word: Vec<u8>,
}

impl Model for PlaceWork {
    ghost use Rattle.retry_ladder.specs.Work.{IsReady, WorkView, work_view};

    ghost Value = { WorkView };

    ghost view = { work_view };

    ghost invariant = { IsReady };
}

impl PlaceWork {
    // Takes all the memory that the work on any place needs.
    pub(crate) fn new(
        alloc: Global,
        shape: Shape,
        read_levels: Items<i16>,
        step: u16,
    ) -> Result<PlaceWork, Memory>
        requires few_levels { length read_levels ≤ 16 }
        requires levels { IsTrue (list_all is_level read_levels) }
        requires step { step ≤ 2047 }
        ensures shape { IfOk result (λ work. work.shape ≡ shape) }
        ensures levels { IfOk result (λ work. work.levels ≡ read_levels) }
        ensures step { IfOk result (λ work. work.step ≡ step) }
        ensures run { IfOk result (λ work. work.run ≡ place_start read_levels shape.words) }
        ensures word { IfOk result (λ work. length work.word ≡ word_bytes_in shape) }
    {
        let bytes = shape.word_bytes();
        let five = vec![in alloc; 0u8; 5 * bytes].map_err(|_| Memory)?;
        let bits = vec![in alloc; 0u8; 5 * shape.code_bytes()].map_err(|_| Memory)?;
        let values = vec![in alloc; 0i8; 8 * shape.code_bytes()].map_err(|_| Memory)?;
        let word = vec![in alloc; 0u8; bytes].map_err(|_| Memory)?;
        Ok(PlaceWork {
            shape,
            read_levels,
            step,
            rung: 0,
            best: None,
            count: 0,
            kept: [false; 4],
            five,
            bits,
            values,
            word,
        })
    }

    // Begins the work on a place.
    pub(crate) fn begin(&mut self)
        ensures { self.new
            ≡ record self.old { run = place_start self.old.levels self.old.shape.words } }
    {
        self.rung = 0;
        self.best = None;
        self.count = 0;
        self.kept = [false; 4];
    }

    // The level that the work wants next.
    pub(crate) fn level(&self) -> i16
        ensures { result ≡ level_wanted self.now.step self.now.run.left self.now.run }
    {
        if (self.rung as usize) < self.read_levels.len() {
            self.read_levels.as_slice()[self.rung as usize]
        } else {
            soft_level(self.step, center_of(self.best), self.count)
        }
    }

    // The latest word that was found.
    pub(crate) fn word(&self) -> &[u8]
        ensures word { result.now ≡ self.now.word }
        ensures length { length self.now.word ≡ word_bytes_in self.now.shape }
    {
        &self.word
    }

    // Keeps a word in the place of the latest one.
    pub(crate) fn set_word(&mut self, word: &[u8])
        requires { length word.now ≡ word_bytes_in self.old.shape }
        ensures { self.new ≡ record self.old { run = self.new.run; word = word.now } }
    {
        self.word.copy_from_slice(word);
    }

    // The shape.
    pub(crate) fn shape(&self) -> &Shape
        ensures { result.now ≡ self.now.shape }
    {
        &self.shape
    }

    // How many read levels there are.
    pub(crate) fn levels(&self) -> u8
        ensures value { result ≡ length self.now.levels }
        ensures few { result ≤ 16 }
    {
        self.read_levels.len() as u8
    }

    // One more sense. A page's word counts where it is expected.
    pub(crate) fn feed<C: Decode>(
        &mut self,
        decoder: &mut C,
        bits: &[u8],
        head: Option<(u64, u32)>,
    ) -> Step
        requires code { IsCodeOf self.old.shape (C.matrix decoder.old) }
        requires bits { length bits.now ≡ word_bytes_in self.old.shape }
        ensures step { IsStepTo self.old result self.new
            (step_with self.old (C.matrix decoder.old) (C.limit decoder.old) head bits.now) }
        ensures matrix { C.matrix decoder.new ≡ C.matrix decoder.old }
        ensures limit { C.limit decoder.new ≡ C.limit decoder.old }
    {
        if (self.rung as usize) < self.read_levels.len() {
            self.feed_hard(decoder, bits, head)
        } else {
            self.feed_soft(decoder, bits, head)
        }
    }

    // One more sense at a read level.
    fn feed_hard<C: Decode>(
        &mut self,
        decoder: &mut C,
        bits: &[u8],
        head: Option<(u64, u32)>,
    ) -> Step
        requires code { IsCodeOf self.old.shape (C.matrix decoder.old) }
        requires bits { length bits.now ≡ word_bytes_in self.old.shape }
        requires hard { self.old.run.rung < length self.old.levels }
        ensures step { IsStepTo self.old result self.new
            (step_with self.old (C.matrix decoder.old) (C.limit decoder.old) head bits.now) }
        ensures matrix { C.matrix decoder.new ≡ C.matrix decoder.old }
        ensures limit { C.limit decoder.new ≡ C.limit decoder.old }
    {
        let level = self.level();
        if is_page_found(
            decoder,
            &self.shape,
            head,
            Part::Hard,
            bits,
            &mut self.bits,
            &mut self.values,
            &mut self.kept,
            &mut self.word,
        ) {
            return Step::Finds { rung: self.rung };
        }
        let failed = failed_of(decoder, &self.shape, bits, &mut self.bits);
        self.best = Some(better(self.best, level, failed));
        self.rung += 1;
        Step::GoesOn
    }

    // One more sense of the soft part.
    fn feed_soft<C: Decode>(
        &mut self,
        decoder: &mut C,
        bits: &[u8],
        head: Option<(u64, u32)>,
    ) -> Step
        requires code { IsCodeOf self.old.shape (C.matrix decoder.old) }
        requires bits { length bits.now ≡ word_bytes_in self.old.shape }
        requires soft { self.old.run.rung ≡ length self.old.levels }
        ensures step { IsStepTo self.old result self.new
            (step_with self.old (C.matrix decoder.old) (C.limit decoder.old) head bits.now) }
        ensures matrix { C.matrix decoder.new ≡ C.matrix decoder.old }
        ensures limit { C.limit decoder.new ≡ C.limit decoder.old }
    {
        put_sense(&mut self.five, self.count, bits);
        if self.count < 4 {
            self.count += 1;
            return Step::GoesOn;
        }
        if is_page_found(
            decoder,
            &self.shape,
            head,
            Part::Soft,
            &self.five,
            &mut self.bits,
            &mut self.values,
            &mut self.kept,
            &mut self.word,
        ) {
            return Step::Finds { rung: self.rung };
        }
        Step::Misses
    }
}

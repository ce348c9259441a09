ghost use Rattle.std.specs.Prelude.{◌≡◌, ◌≢◌, ◌≤◌, ◌<◌, ℕ, List, [], ◌∷◌, length, IfOk, MatchBool, MatchOption};
ghost use Rattle.std.specs.List.{All};
ghost use Rattle.crossbeam_queue.specs.Passes.{view};
ghost use Rattle.hint_queue.specs.Counts.{first_tally};
ghost use Rattle.hint_queue.specs.Gathered.{HasPasses, IsWhole};
ghost use Rattle.hint_queue.specs.Orders.{AreInOrder, HaveAll, HintPassState, WereWaiting};
ghost use Rattle.hint_queue.specs.Orders.{having_met_full, having_pushed, having_taken, knowing_all_taken, new_passes};
ghost use Rattle.hint_queue.specs.Steps.{opened};

use crate::counts::{Counting, Settle, Share, Tally, Unite};
use crate::hint_pass::{HintPass, Seats};
use crate::law::{Deal, Gather, Take};
use crate::steps::{Place, Queue, Teller, WORDS, after, open, put, take, tell, wait};
use crate::view::Noted;
use atomic_table::Table;
use ssd_geo::Memory;
use std::alloc::Global;
use std::marker::{Brand, Model};
use std::sync::Wait;

// How many pages wait at most: a read that asks beyond them goes without its refresh.
const MOST_HINTS: usize = 256;

// The word of the pages that were pushed.
const PUSHED: usize = 0;

/// The pages that wait for a refresh, shared by threads. Contracts see which queue it is, how many passes it has, and
/// the bound of its pages.
#[derive(Drop)]
pub struct Hints {
    queue: Queue,
    counts: Table<u64, Tally, u32, Counting, Global>,
    passes: u32,
    pages: u32,
}

impl Model for Hints {
    ghost use Rattle.std.specs.Prelude.{◌≡◌, ◌≤◌};
    ghost use Rattle.crossbeam_queue.specs.Passes.{ruled_capacity};
    ghost use Rattle.hint_queue.specs.Orders.{QueueState};

    ghost Value = { QueueState };

    ghost view = { λ h. record {
      queue = h.queue.table.shared.table_id;
      counts = h.counts.shared.table_id;
      passes = h.passes;
      pages = h.pages;
    } };

    ghost invariant = { λ h. (ruled_capacity h.queue ≡ 256) × (h.counts.shared.table_id.words ≡ 33) × (1 ≤ h.passes) × (h.passes ≤ 32) };
}

/// The seats of a pass that took in others.
#[derive(Drop)]
struct Whole {
    place: Place,
    teller: Teller,
}

impl Hints {
    /// An empty queue of pages below a bound, and its passes in the order of their numbers.
    pub fn new(alloc: Global, passes: u32, pages: u32) -> Result<(Hints, Vec<HintPass>), Memory>
        requires some { 1 ≤ passes }
        requires few { passes ≤ 32 }
        ensures queue { IfOk result (λ made. (made.0.passes ≡ passes) × (made.0.pages ≡ pages)) }
        ensures passes { IfOk result (λ made. made.1.items ≡ new_passes made.0 0 passes) }
    {
        let Ok((queue, mut place)) = Queue::ruled(alloc, MOST_HINTS) else {
            return Err(Memory);
        };
        open::<Brand>(&queue, &mut place, passes, pages);
        let Ok((counts, teller)) = Table::of_words(alloc, &[0; WORDS], &passes) else {
            return Err(Memory);
        };
        let hints = Hints {
            queue,
            counts,
            passes,
            pages,
        };
        let dealt = hints.dealt(alloc, place, teller)?;
        Ok((hints, dealt))
    }

    // The passes in the order of their numbers.
    fn dealt(
        &self,
        alloc: Global,
        mut place: Place,
        mut teller: Teller,
    ) -> Result<Vec<HintPass>, Memory>
        requires queue { (place.table_id ≡ self.now.queue) × (place.me.1 ≡ []) }
        requires all { view place ≡ opened self.now.passes self.now.pages }
        requires counts { teller.table_id ≡ self.now.counts }
        requires shares { teller.me ≡ (first_tally self.now.passes, []) }
        ensures { IfOk result (λ passes. passes.items ≡ new_passes self.now 0 self.now.passes) }
    {
        let Ok(mut dealt) = Vec::with_capacity(alloc, self.passes as usize) else {
            return Err(Memory);
        };
        for number in 0..self.passes {
            let seats = Seats {
                number: number as u8,
                pushes: 0,
                place: self.queue.another::<Deal>(&mut place),
                teller: self.counts.shared.split_seat::<Share>(&mut teller),
            };
            let Ok(()) = dealt.push(HintPass::of(seats)) else {
                return Err(Memory);
            };
        }
        Ok(dealt)
    }

    /// Puts a page behind the others, unless the queue is full.
    pub fn push<R: Wait>(&self, rt: &R, pass: HintPass, page: u32) -> (HintPass, bool)
        requires queue { pass.queue ≡ self.now }
        requires page { page < self.now.pages }
        ensures pass { MatchBool result.1 (result.0 ≡ having_pushed pass page) (result.0 ≡ having_met_full pass) }
        ensures full { MatchBool result.1 (Unit {0}) (WereWaiting pass 256) }
    {
        let counts = &self.counts.shared;
        let mut seats = pass.into_seats();
        let noted = Noted {
            page,
            by: seats.number,
        };
        let next = after(rt, seats.pushes);
        if put(rt, &self.queue, &mut seats.place, noted) {
            tell(counts, &mut seats.teller, PUSHED);
            seats.pushes = next;
            return (HintPass::of(seats), true);
        }
        // Who pushed one of the 256 pages may not have told so yet.
        wait(rt, counts, &mut seats.teller, PUSHED, 256, u64::MAX);
        (HintPass::of(seats), false)
    }

    /// Takes the page in front, if there is one.
    pub fn pop<R: Wait>(&self, rt: &R, pass: HintPass) -> (HintPass, Option<u32>)
        requires { pass.queue ≡ self.now }
        ensures pass { MatchOption result.1 (result.0 ≡ knowing_all_taken pass) (λ page. result.0 ≡ having_taken pass page) }
        ensures page { MatchOption result.1 (WereWaiting pass 0) (λ page. page < self.now.pages) }
    {
        let counts = &self.counts.shared;
        let mut seats = pass.into_seats();
        if let Some(noted) = take(rt, &self.queue, &mut seats.place) {
            tell(counts, &mut seats.teller, noted.by as usize + 1);
            return (HintPass::of(seats), Some(noted.page));
        }
        // Who took one of its pages may not have told so yet.
        let word = seats.number as usize + 1;
        wait(
            rt,
            counts,
            &mut seats.teller,
            word,
            seats.pushes,
            seats.pushes,
        );
        (HintPass::of(seats), None)
    }

    // One pass more is taken in.
    fn gather(&self, whole: Whole, pass: HintPass) -> Whole
        requires pass { pass.queue ≡ self.now }
        requires whole { IsWhole self.now whole.place whole.teller }
        ensures whole { IsWhole self.now result.place result.teller }
        ensures passes { (passes : List HintPassState) → HasPasses self.now passes whole.place whole.teller → HasPasses self.now (pass ∷ passes) result.place result.teller }
    {
        let Whole {
            mut place,
            mut teller,
        } = whole;
        let seats = pass.into_seats();
        self.queue.absorb::<Gather>(&mut place, seats.place);
        self.counts
            .shared
            .join_seat::<Unite>(&mut teller, seats.teller);
        Whole { place, teller }
    }

    // The seats of a pass that will take in others.
    fn first(&self, pass: HintPass) -> Whole
        requires { pass.queue ≡ self.now }
        ensures whole { IsWhole self.now result.place result.teller }
        ensures passes { HasPasses self.now (pass ∷ []) result.place result.teller }
    {
        let seats = pass.into_seats();
        Whole {
            place: seats.place,
            teller: seats.teller,
        }
    }

    // All passes in one.
    fn gathered(&self, mut passes: Vec<HintPass>) -> Whole
        requires some { 1 ≤ length passes.items }
        requires queue { All (λ pass. pass.queue ≡ self.now) passes.items }
        ensures whole { IsWhole self.now result.place result.teller }
        ensures passes { HasPasses self.now passes.items result.place result.teller }
    {
        let mut whole = self.first(passes.pop().unwrap());
        while let Some(pass) = passes.pop() {
            whole = self.gather(whole, pass);
        }
        whole
    }

    /// Takes the passes in, one after the other.
    pub fn close<R: Wait>(self, rt: &R, passes: Vec<HintPass>)
        requires queue { All (λ pass. pass.queue ≡ self) passes.items }
        requires numbers { HaveAll self.passes passes.items }
        ensures { AreInOrder self passes.items }
    {
        let Whole {
            mut place,
            mut teller,
        } = self.gathered(passes);
        self.counts.shared.load::<Settle>(&mut teller, PUSHED);
        self.queue.len_as::<Take, R>(rt, &mut place);
    }
}

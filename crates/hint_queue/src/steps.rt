ghost use Rattle.std.specs.Prelude.{◌≡◌, ◌+◌, ◌<◌, ◌≤◌, [], ◌∷◌, MatchBool, MatchOption};
ghost use Rattle.crossbeam_queue.specs.Fifo.{Held};
ghost use Rattle.crossbeam_queue.specs.Passes.{IsPassOf, IsSamePass, ruled_capacity, view};
ghost use Rattle.hint_queue.specs.Counts.{HasSeen, telling};
ghost use Rattle.hint_queue.specs.Places.{part_in};
ghost use Rattle.hint_queue.specs.Steps.{Waiting, deal_left, deal_right, opened, pushed_part, taken_part};
ghost use Rattle.hint_queue.specs.declared.view.View.TheVariants.{New, Deals, Has};

use crate::counts::{Counting, Look, Share, Tally, Tell};
use crate::law::{Bounds, Deal, Law, Open, Push, Take};
use crate::view::{Noted, View};
use atomic_table::{Seat, Shared};
use crossbeam_queue::{Pass, RuledArrayQueue};
use std::sync::Wait;
use std::thread::yield_now;

/// One word for the pages that were pushed, and one for each of at most 32 passes.
pub const WORDS: usize = 33;

pub type Queue = RuledArrayQueue<Noted, View, Law>;

pub type Place = Pass<Noted, View>;

pub type Counts = Shared<u64, Tally, u32, Counting>;

pub type Teller = Seat<u64, Tally>;

/// Gives a queue its bounds.
pub fn open<B: Bounds>(queue: &Queue, place: &mut Place, passes: u32, pages: u32)
    requires queue { IsPassOf queue.now place.old }
    requires new { view place.old ≡ New }
    requires bounds { (B.passes ≡ passes) × (B.pages ≡ pages) }
    ensures queue { IsPassOf queue.now place.new }
    ensures view { view place.new ≡ opened passes pages }
{
    queue.another::<Open<B>>(place);
}

/// Pushes a page, where there is room.
pub fn put<R: Wait>(rt: &R, queue: &Queue, place: &mut Place, noted: Noted) -> bool
    requires queue { IsPassOf queue.now place.old }
    requires capacity { ruled_capacity queue.now ≡ 256 }
    requires part { view place.old ≡ Has (part_in (view place.old) ∷ []) }
    requires number { (part_in (view place.old)).number ≡ noted.by }
    requires page { noted.page < (part_in (view place.old)).pages }
    ensures seat { IsSamePass place.old place.new }
    ensures answer { MatchBool result (view place.new ≡ Has (pushed_part (part_in (view place.old)) noted.page ∷ []))
        ((view place.new ≡ view place.old) × Held 256 (Waiting (view place.old))) }
{
    match queue.push_as::<Push, R>(rt, place, noted) {
        Ok(()) => true,
        Err(_) => false,
    }
}

/// Takes a page, where there is one.
pub fn take<R: Wait>(rt: &R, queue: &Queue, place: &mut Place) -> Option<Noted>
    requires queue { IsPassOf queue.now place.old }
    requires part { view place.old ≡ Has (part_in (view place.old) ∷ []) }
    ensures seat { IsSamePass place.old place.new }
    ensures answer { MatchOption result ((view place.new ≡ view place.old) × Held 0 (Waiting (view place.old)))
        (λ noted. (view place.new ≡ Has (taken_part (part_in (view place.old)) noted ∷ []))
        × (noted.page < (part_in (view place.old)).pages) × (noted.by < (part_in (view place.old)).passes)) }
{
    queue.pop_as::<Take, R>(rt, place)
}

/// Adds one to a word of the counts.
pub fn tell(counts: &Counts, teller: &mut Teller, word: usize)
    requires words { counts.now.table_id.words ≡ 33 }
    requires table { teller.old.table_id ≡ counts.now.table_id }
    requires word { word < 33 }
    requires share { teller.old.me.0.share ≡ 1 }
    ensures table { teller.new.table_id ≡ teller.old.table_id }
    ensures told { teller.new.me ≡ (telling word teller.old.me.0, teller.old.me.1) }
{
    counts.fetch_add::<Tell>(teller, word, 1);
}

/// Waits until a word of the counts has a value in this range.
pub fn wait<R: Wait>(
    rt: &R,
    counts: &Counts,
    teller: &mut Teller,
    word: usize,
    least: u64,
    most: u64,
)
    requires words { counts.now.table_id.words ≡ 33 }
    requires table { teller.old.table_id ≡ counts.now.table_id }
    requires word { word < 33 }
    ensures table { teller.new.table_id ≡ teller.old.table_id }
    ensures found { HasSeen teller.old.me teller.new.me word least most }
{
    for _ in rt.forever() {
        let found = counts.load::<Look>(teller, word);
        if least <= found && found <= most {
            return;
        }
        yield_now();
    }
    unreachable!()
}

/// The number after a count. A count that can't go on waits for ever.
pub fn after<R: Wait>(rt: &R, count: u64) -> u64
    ensures { result ≡ count + 1 }
{
    for _ in rt.forever() {
        if count < u64::MAX {
            return count + 1;
        }
        yield_now();
    }
    unreachable!()
}

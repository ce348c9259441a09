ghost use Rattle.std.specs.Prelude.{◌≡◌, ◌<◌, ◌++◌, ◌∷◌, [], MatchBool};
ghost use Rattle.std.specs.Thread.{IsSync};
ghost use Rattle.turn_table.specs.Passes.{numbers_of};

use crate::{Pass, Standing, Turns};
use ssd_geo::{Entry, Kind, Tag};
use std::sync::Wait;
use std::test::Fail;
use std::thread::{Threads, join};

// A list of entries, which began from nothing.
#[derive(Drop)]
struct Listed {
    entries: Vec<Entry>,
}

impl Standing for Listed {
    type Start = ();

    ghost start = { λ _. tt };

    ghost entries = { λ list. list.entries.items };
}

impl Listed {
    // Whether there was memory for one entry more.
    fn append(&mut self, entry: Entry) -> bool
        ensures { MatchBool result (self.new.entries.items ≡ self.old.entries.items ++ entry ∷ []) (self.new.entries.items ≡ self.old.entries.items) }
    {
        self.entries.push(entry).is_ok()
    }
}

// Appends one entry in one turn.
fn append<R: Wait>(rt: &R, turns: &Turns<Listed>, pass: Pass, tag: Tag) -> Pass
    requires pass { (pass.lock ≡ turns.now.lock) × (numbers_of pass ≡ tag.actor ∷ []) }
    requires number { tag.actor < 255 }
    ensures { (result.lock ≡ turns.now.lock) × (numbers_of result ≡ tag.actor ∷ []) }
{
    let mut turn = turns.take(rt, pass);
    let entry = Entry {
        tag,
        kind: Kind::Trim { row: 0 },
    };
    let _ = turn.value().append(entry);
    turns.give(turn)
}

// Appends the calls 0 to 99 of an actor.
fn append_all<R: Wait>(rt: &R, turns: &Turns<Listed>, pass: Pass, actor: u8) -> Pass
    requires pass { (pass.lock ≡ turns.now.lock) × (numbers_of pass ≡ actor ∷ []) }
    requires number { actor < 255 }
    ensures { (result.lock ≡ turns.now.lock) × (numbers_of result ≡ actor ∷ []) }
{
    let mut pass = pass;
    for call in 0..100 {
        pass = append(rt, turns, pass, Tag { actor, call });
    }
    pass
}

// Actors 1 and 2 append in threads of their own.
fn append_two<R: Threads + Wait + Sync>(
    rt: &R,
    turns: &Turns<Listed>,
    second: Pass,
    third: Pass,
) -> (Pass, Pass)
    requires second { (second.lock ≡ turns.now.lock) × (numbers_of second ≡ 1 ∷ []) }
    requires third { (third.lock ≡ turns.now.lock) × (numbers_of third ≡ 2 ∷ []) }
    ensures second { (result.0.lock ≡ turns.now.lock) × (numbers_of result.0 ≡ 1 ∷ []) }
    ensures third { (result.1.lock ≡ turns.now.lock) × (numbers_of result.1 ≡ 2 ∷ []) }
{
    join(
        rt,
        move || -> Pass
            requires { (second.lock ≡ turns.now.lock) × (numbers_of second ≡ 1 ∷ []) }
            ensures { (result.lock ≡ turns.entry.now.lock) × (numbers_of result ≡ 1 ∷ []) }
        { append_all(rt, turns, second, 1) },
        move || -> Pass
            requires { (third.lock ≡ turns.now.lock) × (numbers_of third ≡ 2 ∷ []) }
            ensures { (result.lock ≡ turns.entry.now.lock) × (numbers_of result ≡ 2 ∷ []) }
        { append_all(rt, turns, third, 2) },
    )
}

// Three threads append.
fn append_three<R: Threads + Wait + Sync>(
    rt: &R,
    turns: &Turns<Listed>,
    first: Pass,
    second: Pass,
    third: Pass,
) -> (Pass, (Pass, Pass))
    requires first { (first.lock ≡ turns.now.lock) × (numbers_of first ≡ 0 ∷ []) }
    requires second { (second.lock ≡ turns.now.lock) × (numbers_of second ≡ 1 ∷ []) }
    requires third { (third.lock ≡ turns.now.lock) × (numbers_of third ≡ 2 ∷ []) }
    ensures first { (result.0.lock ≡ turns.now.lock) × (numbers_of result.0 ≡ 0 ∷ []) }
    ensures second { (result.1.0.lock ≡ turns.now.lock) × (numbers_of result.1.0 ≡ 1 ∷ []) }
    ensures third { (result.1.1.lock ≡ turns.now.lock) × (numbers_of result.1.1 ≡ 2 ∷ []) }
{
    join(
        rt,
        move || -> Pass
            requires { (first.lock ≡ turns.now.lock) × (numbers_of first ≡ 0 ∷ []) }
            ensures { (result.lock ≡ turns.entry.now.lock) × (numbers_of result ≡ 0 ∷ []) }
        { append_all(rt, turns, first, 0) },
        move || -> (Pass, Pass)
            requires { IsSync R.row × (second.lock ≡ turns.now.lock) × (numbers_of second ≡ 1 ∷ []) × (third.lock ≡ turns.now.lock) × (numbers_of third ≡ 2 ∷ []) }
            ensures { (result.0.lock ≡ turns.entry.now.lock) × (numbers_of result.0 ≡ 1 ∷ []) × (result.1.lock ≡ turns.entry.now.lock) × (numbers_of result.1 ≡ 2 ∷ []) }
        { append_two(rt, turns, second, third) },
    )
}

// How many entries an actor has, where its calls are numbered in their order.
fn count_in_order(entries: &[Entry], actor: u8) -> Option<u32> {
    let mut next = 0u32;
    for entry in entries {
        if entry.tag.actor == actor {
            if entry.tag.call != next {
                return None;
            }
            next = next.wrapping_add(1);
        }
    }
    Some(next)
}

#[test]
fn entries_of_each_pass_stand_in_order(rt: HostRuntime) -> Result<(), Fail> {
    let list = Listed {
        entries: Vec::with_capacity(rt.alloc(), 300)?,
    };
    let (turns, mut passes) = Turns::new(rt.alloc(), list, 3)?;
    let third = passes.pop().ok_or("three passes")?;
    let second = passes.pop().ok_or("three passes")?;
    let first = passes.pop().ok_or("three passes")?;
    let Ok((first, cut)) = turns.split(first) else {
        panic!(rt; "memory is ample")
    };
    let (first, (second, third)) = append_three(&rt, &turns, first, second, third);
    passes.push(turns.join(first, cut))?;
    passes.push(second)?;
    passes.push(third)?;
    let list = turns.close(passes);
    assert_eq!(rt; list.entries.len(), 300);
    for actor in 0..3 {
        assert_eq!(rt;
            count_in_order(list.entries.as_slice(), actor),
            Some(100),
            "actor {actor}"
        );
    }
    Ok(())
}

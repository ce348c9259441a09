ghost use Rattle.std.specs.Prelude.{IfOk};
ghost use Rattle.room_tests.specs.SmallChannel.{IsTried};
ghost use Rattle.room_tests.specs.OpenLooks.{IsFreshIfLive, IsSmallPlace, KeepsLooks};

use super::moving::moved;
use super::{
    FIRST, FaultyDie, SECOND, Wrong, begun, begun_with, entry, is_written, looked, sensed_for,
    slot, tag, trim, write,
};
use chan_state::{
    Channel, EraseAnswer, LiveAnswer, LookAnswer, MoveAnswer, Note, PickAnswer, WriteAnswer,
};
use ssd_geo::{Entry, Kind, Place, Row, SbInfo, StepStop, Tag};
use std::alloc::Global;
use std::process::Abort;
use std::test::Fail;
use victim::{Greedy, Policy};

// Tells how full a channel is.
fn noted<P: Policy>(channel: &mut Channel<FaultyDie, P>, call: u32) -> Result<Note, StepStop>
    requires { IsTried channel.old.kept }
    ensures { IsTried channel.new.kept }
{
    channel.note(tag(call))
}

// Looks at the live page of least index of a superblock, where it is the victim.
fn looked_live<P: Policy>(
    channel: &mut Channel<FaultyDie, P>,
    by: Tag,
    sb: u16,
) -> Result<LiveAnswer, StepStop>
    requires { IsTried channel.old.kept }
    ensures tried { IsTried channel.new.kept }
    ensures found { IfOk result (λ answer. IsFreshIfLive channel.new.kept by answer) }
{
    channel.look_live(by, sb)
}

// Makes a superblock the victim.
fn picked<P: Policy>(channel: &mut Channel<FaultyDie, P>, by: Tag) -> Result<PickAnswer, StepStop>
    requires { IsTried channel.old.kept }
    ensures tried { IsTried channel.new.kept }
    ensures keeps { KeepsLooks channel.old.kept channel.new.kept }
{
    channel.pick(by)
}

// Erases a superblock, where it is the victim.
fn erased<P: Policy>(
    channel: &mut Channel<FaultyDie, P>,
    by: Tag,
    sb: u16,
) -> Result<EraseAnswer, StepStop>
    requires { IsTried channel.old.kept }
    ensures tried { IsTried channel.new.kept }
    ensures keeps { KeepsLooks channel.old.kept channel.new.kept }
{
    channel.erase_if(by, sb)
}

#[test]
fn a_sealed_superblock_is_no_victim(rt: HostRuntime) -> Result<(), Fail> {
    let mut channel = begun(rt.alloc(), Greedy::new(), 300)?;
    for call in 0..4 {
        let _ = write(&mut channel, call, call, &FIRST)?;
    }
    for sb in [0, 1, 3, 4, 65535] {
        let live = looked_live(&mut channel, tag(4), sb);
        assert_eq!(rt; live, Ok(LiveAnswer::NotVictim), "superblock {sb}");
        let answer = erased(&mut channel, tag(5), sb);
        assert_eq!(rt; answer, Ok(EraseAnswer::NotVictim), "superblock {sb}");
    }
    assert_eq!(rt; channel.history().len(), 4);
    Ok(())
}

#[test]
fn a_full_history_is_told_first(rt: HostRuntime) -> Result<(), Fail> {
    let mut channel = begun(rt.alloc(), Greedy::new(), 256)?;
    let _ = write(&mut channel, 0, 0, &FIRST)?;
    let full = Err(StepStop::HistoryFull { length: 1 });
    assert_eq!(rt; looked_live(&mut channel, tag(1), 0), full);
    assert_eq!(rt; erased(&mut channel, tag(2), 0), Ok(EraseAnswer::NotVictim));
    Ok(())
}

#[test]
fn a_note_counts_free_superblocks_and_garbage(rt: HostRuntime) -> Result<(), Fail> {
    let mut channel = begun(rt.alloc(), Greedy::new(), 4096)?;
    let blank = Note {
        free: 4,
        victim: None,
        live: 0,
        pins: 0,
        garbage: 0,
    };
    assert_eq!(rt; noted(&mut channel, 0), Ok(blank));
    let added = entry(
        0,
        Kind::Note {
            free: 4,
            victim: None,
            live: 0,
            pins: 0,
            garbage: 0,
        },
    );
    assert_eq!(rt; channel.history().last(), Some(&added));
    // Each of the first four rows is written twice, so no page of superblock 0 is live.
    for call in 0..12 {
        let _ = write(&mut channel, call, call % 8, &FIRST)?;
    }
    let full = Note {
        free: 1,
        victim: None,
        live: 0,
        pins: 0,
        garbage: 1,
    };
    assert_eq!(rt; noted(&mut channel, 12), Ok(full));
    Ok(())
}

// The place of slot 0 of superblock 0.
const FIRST_PLACE: Place = Place {
    die: 1,
    sb: 0,
    page: 0,
};

// The place of slot 3 of superblock 0.
const LAST_PLACE: Place = Place {
    die: 2,
    sb: 0,
    page: 1,
};

// A policy that answers the same superblock always, whether it may be picked or not.
#[derive(Drop)]
struct Always {
    sb: u16,
}

impl Policy for Always {
    ghost use Rattle.std.specs.Prelude.{None};

    ghost told = { λ policy. None };

    fn pick(&mut self, _table: &[SbInfo]) -> u16 {
        self.sb
    }

    fn erased(&mut self, _sb: u16) {}
}

// Twelve pages, the last four of which are new ones of rows 0, 1, 2 and 4: superblock 0 has three slots of garbage,
// superblock 1 has one, and superblock 2 none.
fn filled<P: Policy>(alloc: Global, policy: P) -> Result<Channel<FaultyDie, P>, Fail>
    ensures { IfOk result (λ channel. IsTried channel.kept) }
{
    let mut channel = begun(alloc, policy, 4096)?;
    for call in 0..8 {
        let _ = write(&mut channel, call, call, &FIRST)?;
    }
    let _ = write(&mut channel, 8, 0, &SECOND)?;
    let _ = write(&mut channel, 9, 1, &SECOND)?;
    let _ = write(&mut channel, 10, 2, &SECOND)?;
    let _ = write(&mut channel, 11, 4, &SECOND)?;
    Ok(channel)
}

#[test]
fn a_policy_picks_among_those_with_garbage_alone(rt: HostRuntime) -> Result<(), Fail> {
    // No such superblock, a free one, one without garbage, and one with some.
    for (answer, victim) in [(65535, 0), (3, 0), (2, 0), (1, 1)] {
        let mut channel = filled(rt.alloc(), Always { sb: answer })?;
        let first = picked(&mut channel, tag(12));
        assert_eq!(rt;
            first,
            Ok(PickAnswer::Picked { sb: victim }),
            "for {answer}"
        );
        assert_eq!(rt;
            channel.history().last(),
            Some(&entry(12, Kind::Pick { sb: victim }))
        );
        let second = picked(&mut channel, tag(12));
        assert_eq!(rt; second, Ok(PickAnswer::Busy { sb: victim }), "for {answer}");
        assert_eq!(rt; channel.history().len(), 13);
    }
    Ok(())
}

#[test]
fn a_blank_channel_has_no_garbage(rt: HostRuntime) -> Result<(), Fail> {
    let mut channel = begun(rt.alloc(), Greedy::new(), 4096)?;
    assert_eq!(rt; picked(&mut channel, tag(0)), Ok(PickAnswer::NoGarbage));
    assert_eq!(rt; channel.history().len(), 0);
    Ok(())
}

// Copies the live page of least index in a superblock: a look, a sense, a move and its leave.
fn moved_live<P: Policy>(
    channel: &mut Channel<FaultyDie, P>,
    by: Tag,
    sb: u16,
    place: Place,
) -> Result<Option<MoveAnswer>, StepStop>
    requires tried { IsTried channel.old.kept }
    requires place { IsSmallPlace place }
    ensures { IsTried channel.new.kept }
{
    let LiveAnswer::Found(look) = looked_live(channel, by, sb)? else {
        return Ok(None);
    };
    let mut word = [0; 48];
    let _ = sensed_for(channel, by, look.at, place, 0, &mut word);
    Ok(Some(moved(channel, by, look.at, &word)))
}

// What a collection enters that moves the one live page of superblock 0, and the write after it.
fn kinds_of_a_collection() -> [Kind; 7] {
    let found = Row::Page {
        slot: slot(0, 3),
        serial: 3,
    };
    [
        Kind::Pick { sb: 0 },
        Kind::Look {
            row: 3,
            found,
            closed: true,
        },
        Kind::Sense {
            at: 13,
            place: LAST_PLACE,
            level: 0,
        },
        Kind::Move {
            at: 13,
            slot: slot(3, 0),
        },
        Kind::Leave { at: 13 },
        Kind::Erase { sb: 0 },
        Kind::Write {
            row: 5,
            slot: slot(3, 1),
        },
    ]
}

// A full channel has a victim, which isn't erased while a page of it is live.
fn pick_a_live_victim<P: Policy>(rt: &impl Abort, channel: &mut Channel<FaultyDie, P>)
    requires { IsTried channel.old.kept }
    ensures { IsTried channel.new.kept }
{
    assert_eq!(rt; write(channel, 12, 5, &SECOND), Ok(WriteAnswer::NeedRoom));
    assert_eq!(rt; picked(channel, tag(12)), Ok(PickAnswer::Picked { sb: 0 }));
    let answer = erased(channel, tag(12), 0);
    assert_eq!(rt; answer, Ok(EraseAnswer::Live { count: 1 }));
}

// The live page is moved, and the superblock is erased, which gives room for a write.
fn empty_the_victim<P: Policy>(rt: &impl Abort, channel: &mut Channel<FaultyDie, P>)
    requires { IsTried channel.old.kept }
    ensures { IsTried channel.new.kept }
{
    let moved = MoveAnswer::Moved { slot: slot(3, 0) };
    let answer = moved_live(channel, tag(12), 0, LAST_PLACE);
    assert_eq!(rt; answer, Ok(Some(moved)));
    let live = looked_live(channel, tag(12), 0);
    assert_eq!(rt; live, Ok(LiveAnswer::NoneLive));
    assert_eq!(rt; erased(channel, tag(12), 0), Ok(EraseAnswer::Erased));
    assert!(rt; is_written(write(channel, 12, 5, &SECOND), slot(3, 1)));
}

#[test]
fn a_collection_moves_what_is_live_and_erases(rt: HostRuntime) -> Result<(), Fail> {
    let mut channel = filled(rt.alloc(), Always { sb: 65535 })?;
    pick_a_live_victim(&rt, &mut channel);
    empty_the_victim(&rt, &mut channel);
    let collected = kinds_of_a_collection();
    assert_eq!(rt; channel.history().len(), 12 + collected.len());
    for (at, kind) in collected.iter().enumerate() {
        assert_eq!(rt;
            channel.history().get(12 + at),
            Some(&entry(12, *kind)),
            "entry {at}"
        );
    }
    Ok(())
}

// Writes the pages of superblock 0, looks at the first and senses it, and trims all. Then the superblock is picked, and
// another page of row 0 is written, before the look's page is to move. Answers what an erase says before the move and
// after the look is left, and what the move says.
fn pinned<P: Policy>(
    channel: &mut Channel<FaultyDie, P>,
) -> Result<Option<(EraseAnswer, MoveAnswer, EraseAnswer)>, StepStop>
    requires { IsTried channel.old.kept }
{
    let _ = write(channel, 0, 0, &FIRST)?;
    let _ = write(channel, 1, 1, &FIRST)?;
    let _ = write(channel, 2, 2, &FIRST)?;
    let _ = write(channel, 3, 3, &FIRST)?;
    let by = Tag { actor: 1, call: 0 };
    let LookAnswer::Found(look) = looked(channel, by, 0)? else {
        return Ok(None);
    };
    let mut word = [0; 48];
    let _ = sensed_for(channel, by, look.at, FIRST_PLACE, 0, &mut word);
    trim(channel, 4, 0)?;
    trim(channel, 5, 1)?;
    trim(channel, 6, 2)?;
    trim(channel, 7, 3)?;
    let collects = Tag { actor: 2, call: 0 };
    let _ = picked(channel, collects)?;
    let before = erased(channel, collects, 0)?;
    let _ = write(channel, 8, 0, &SECOND)?;
    let answer = moved(channel, by, look.at, &word);
    let after = erased(channel, collects, 0)?;
    Ok(Some((before, answer, after)))
}

#[test]
fn an_open_look_keeps_the_victim(rt: HostRuntime) -> Result<(), Fail> {
    let mut channel = begun(rt.alloc(), Greedy::new(), 4096)?;
    let row = Row::Page {
        slot: slot(1, 0),
        serial: 8,
    };
    let ends = (
        EraseAnswer::Pinned { count: 1 },
        MoveAnswer::Changed { row },
        EraseAnswer::Erased,
    );
    assert_eq!(rt; pinned(&mut channel), Ok(Some(ends)));
    let of_actor = |actor, call, kind| Entry {
        tag: Tag { actor, call },
        kind,
    };
    let last = [
        of_actor(2, 0, Kind::Pick { sb: 0 }),
        entry(
            8,
            Kind::Write {
                row: 0,
                slot: slot(1, 0),
            },
        ),
        of_actor(1, 0, Kind::Changed { at: 4, found: row }),
        of_actor(1, 0, Kind::Leave { at: 4 }),
        of_actor(2, 0, Kind::Erase { sb: 0 }),
    ];
    assert_eq!(rt; channel.history().len(), 15);
    assert_eq!(rt; channel.history().get(10..), Some(last.as_slice()));
    Ok(())
}

#[test]
fn a_failed_run_ends_an_erase(rt: HostRuntime) -> Result<(), Fail> {
    // Eight writes make four runs of each die. The erase makes one of die 0, and then one of die 1, which fails.
    let wrong = Wrong {
        weak: &[],
        runs: [&[], &[5], &[]],
    };
    let policy = Greedy::new();
    let mut channel = begun_with(rt.alloc(), &wrong, policy, 4096)?;
    for call in 0..8 {
        let _ = write(&mut channel, call, call % 4, &FIRST)?;
    }
    assert_eq!(rt;
        picked(&mut channel, tag(8)),
        Ok(PickAnswer::Picked { sb: 0 })
    );
    let answer = erased(&mut channel, tag(8), 0);
    assert_eq!(rt; answer, Ok(EraseAnswer::DieFault { die: 1 }));
    let bad = entry(
        8,
        Kind::BadErase {
            sb: 0,
            die: 1,
            fault: true,
        },
    );
    assert_eq!(rt; channel.history().last(), Some(&bad));
    // The superblock is bad: it is the victim no longer, and isn't picked again.
    assert_eq!(rt; erased(&mut channel, tag(8), 0), Ok(EraseAnswer::NotVictim));
    assert_eq!(rt; picked(&mut channel, tag(8)), Ok(PickAnswer::NoGarbage));
    Ok(())
}

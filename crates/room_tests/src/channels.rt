ghost use Rattle.std.specs.Prelude.{◌≡◌, ◌≤◌, ◌<◌, ◌^◌, IfOk, [], ◌∷◌, is_some, length, true};
ghost use Rattle.ssd_geo.specs.Shape.{HasSizes};
ghost use Rattle.ssd_histories.specs.HistoryExamples.{small_sizes};
ghost use Rattle.die_model.specs.Listed.{listed_state};
ghost use Rattle.die_model.specs.SimState.{state_of};
ghost use Rattle.room_tests.specs.SmallChannel.{AreSmallBlocks, IsStartDie, IsTried, small_base};
ghost use Rattle.room_tests.specs.OpenLooks.{IsFresh, IsFreshIfFound, IsLooked, IsSmallPlace, KeepsLooks};

use chan_state::{AgeAnswer, Channel, LookAnswer, SenseAnswer, WriteAnswer};
use die_model::{ListedFaults, SimDie};
use onfi_cmd::{Die, DiePlan};
use ssd_geo::{
    BlockBase, CellLaw, ChannelBase, Entry, Items, Kind, Look, Place, Row, SbState, Shape, Slot,
    StepStop, Tag, Weak,
};
use std::alloc::{AllocError, Global};
use std::process::Abort;
use std::test::Fail;
use victim::{Greedy, Policy};

mod collecting;
mod failing;
mod moving;

type FaultyDie = ListedFaults<SimDie>;

// Two words, a word of 1s, one of 0s, and the place of slot 1 of superblock 0.
const FIRST: [u8; 48] = [0x0f; 48];

const SECOND: [u8; 48] = [0x35; 48];

const ONES: [u8; 48] = [0xff; 48];

const ZEROS: [u8; 48] = [0; 48];

const PLACE: Place = Place {
    die: 2,
    sb: 0,
    page: 0,
};

const BLANK: BlockBase = BlockBase {
    state: SbState::Free,
    erases: 0,
    used: 0,
};

const LAW: CellLaw = CellLaw {
    erased: -100,
    programmed: 100,
    spread: 0,
    seed: 1,
};

// The blank channel of a small drive with these weak blocks.
fn blank(alloc: Global, shape: Shape, weak: &[Weak]) -> Result<ChannelBase, Fail>
    ensures { IfOk result (λ base. base ≡ small_base shape weak.now) }
{
    Ok(ChannelBase {
        shape,
        session: 0,
        blocks: Items::new(vec![in alloc; BLANK; 4]?),
        rows: Items::new(vec![in alloc; Row::Empty; 8]?),
        sum: Items::new(vec![in alloc; 0; 48]?),
        channel: 0,
        entries: Items::new(vec![in alloc;
            0, 1, -1, 1, 0, -1, 5, -1, 7, 0, 0, 0, -1, 11, 3, 1, -1, 0,
        ]?),
        read_levels: Items::new(vec![in alloc; 0, -60]?),
        iterations: 8,
        step: 10,
        law: LAW,
        weak: Items::new(Vec::from_slice(alloc, weak)?),
    })
}

// A simulated die that fails these of its runs.
fn die_of(alloc: Global, runs: &[u64]) -> Result<FaultyDie, AllocError>
    ensures { IfOk result (λ die. is_some (listed_state state_of die).told ≡ true) }
{
    Ok(ListedFaults::new(
        SimDie::new(),
        Vec::from_slice(alloc, runs)?,
        Vec::new(alloc),
    ))
}

// Mounts a die as the one of this number.
fn mounted(
    alloc: Global,
    number: u8,
    shape: Shape,
    weak: &[Weak],
    runs: &[u64],
) -> Result<FaultyDie, Fail>
    requires number { number < 3 }
    requires sizes { HasSizes shape small_sizes }
    ensures { IfOk result (λ die. IsStartDie shape weak.now number (listed_state state_of die)) }
{
    let mut die = die_of(alloc, runs)?;
    let plan = DiePlan {
        channel: 0,
        die: number,
        shape,
        law: LAW,
        weak: Items::new(Vec::from_slice(alloc, weak)?),
    };
    if die.mount(alloc, &plan).is_err() {
        return Err("not mounted".into());
    }
    Ok(die)
}

// A list of three dies.
fn three_of(
    alloc: Global,
    zero: FaultyDie,
    one: FaultyDie,
    two: FaultyDie,
) -> Result<Vec<FaultyDie>, AllocError>
    ensures { IfOk result (λ dies. dies.items ≡ zero ∷ one ∷ two ∷ []) }
{
    let mut dies = Vec::new(alloc);
    dies.push(zero)?;
    dies.push(one)?;
    dies.push(two)?;
    Ok(dies)
}

// What is wrong with the dies of a channel: which blocks are weak, and which runs of each die fail.
#[derive(Clone, Copy)]
struct Wrong<'a> {
    weak: &'a [Weak],
    runs: [&'a [u64]; 3],
}

const NOTHING_WRONG: Wrong<'static> = Wrong {
    weak: &[],
    runs: [&[], &[], &[]],
};

// A channel that begins, with room for so many entries.
fn begun_with<P: Policy>(
    alloc: Global,
    wrong: &Wrong<'_>,
    policy: P,
    limit: u32,
) -> Result<Channel<FaultyDie, P>, Fail>
    requires weak { AreSmallBlocks wrong.now.weak.now }
    requires low { 256 ≤ limit }
    requires high { limit ≤ 2 ^ 22 }
    ensures { IfOk result (λ channel. IsTried channel.kept) }
{
    let shape = Shape::new(1, 1, 3, 4, 2, 64, 3, 6, 8, 8)?;
    let base = blank(alloc, shape, wrong.weak)?;
    let zero = mounted(alloc, 0, shape, wrong.weak, wrong.runs[0])?;
    let one = mounted(alloc, 1, shape, wrong.weak, wrong.runs[1])?;
    let two = mounted(alloc, 2, shape, wrong.weak, wrong.runs[2])?;
    let dies = three_of(alloc, zero, one, two)?;
    Ok(Channel::start(alloc, base, dies, policy, limit)?)
}

// The same, where nothing is wrong.
fn begun<P: Policy>(alloc: Global, policy: P, limit: u32) -> Result<Channel<FaultyDie, P>, Fail>
    requires low { 256 ≤ limit }
    requires high { limit ≤ 2 ^ 22 }
    ensures { IfOk result (λ channel. IsTried channel.kept) }
{
    begun_with(alloc, &NOTHING_WRONG, policy, limit)
}

fn tag(call: u32) -> Tag {
    Tag { actor: 0, call }
}

fn slot(sb: u16, index: u32) -> Slot {
    Slot { sb, index }
}

fn entry(call: u32, kind: Kind) -> Entry {
    Entry {
        tag: tag(call),
        kind,
    }
}

// The entry of a write.
fn write_entry(call: u32, row: u32, slot: Slot) -> Entry {
    entry(call, Kind::Write { row, slot })
}

// Writes a word of a row.
fn write<P: Policy>(
    channel: &mut Channel<FaultyDie, P>,
    call: u32,
    row: u32,
    word: &[u8; 48],
) -> Result<WriteAnswer, StepStop>
    requires tried { IsTried channel.old.kept }
    requires row { row < 8 }
    ensures tried { IsTried channel.new.kept }
    ensures keeps { KeepsLooks channel.old.kept channel.new.kept }
{
    channel.write(tag(call), row, word)
}

// Empties a row.
fn trim<P: Policy>(channel: &mut Channel<FaultyDie, P>, call: u32, row: u32) -> Result<(), StepStop>
    requires tried { IsTried channel.old.kept }
    requires row { row < 8 }
    ensures tried { IsTried channel.new.kept }
    ensures keeps { KeepsLooks channel.old.kept channel.new.kept }
{
    channel.trim(tag(call), row)
}

// Ages a block.
fn age<P: Policy>(
    channel: &mut Channel<FaultyDie, P>,
    call: u32,
    die: u8,
    sb: u16,
    amount: u16,
) -> Result<AgeAnswer, StepStop>
    requires tried { IsTried channel.old.kept }
    requires die { die < 3 }
    requires superblock { sb < 4 }
    ensures { IsTried channel.new.kept }
{
    channel.age(tag(call), die, sb, amount)
}

// Looks at a row.
fn looked<P: Policy>(
    channel: &mut Channel<FaultyDie, P>,
    by: Tag,
    row: u32,
) -> Result<LookAnswer, StepStop>
    requires tried { IsTried channel.old.kept }
    requires row { row < 8 }
    ensures tried { IsTried channel.new.kept }
    ensures found { IfOk result (λ answer. IsFreshIfFound channel.new.kept by answer) }
{
    channel.look(by, row)
}

// Senses a place for a look that was just made.
fn sensed_for<P: Policy>(
    channel: &mut Channel<FaultyDie, P>,
    by: Tag,
    at: u32,
    place: Place,
    level: i16,
    out: &mut [u8],
) -> SenseAnswer
    requires fresh { IsFresh channel.old.kept by at }
    requires place { IsSmallPlace place }
    requires word { length out.old ≡ 48 }
    ensures looked { IsLooked channel.new.kept by at }
    ensures word { length out.new ≡ 48 }
{
    channel.sense(by, at, place, level, out)
}

// Ends a look.
fn left<P: Policy>(channel: &mut Channel<FaultyDie, P>, by: Tag, at: u32)
    requires { IsLooked channel.old.kept by at }
    ensures { IsTried channel.new.kept }
{
    channel.leave(by, at);
}

// Looks at a row, and senses what stands at the place before it leaves the look.
fn read<P: Policy>(
    channel: &mut Channel<FaultyDie, P>,
    call: u32,
    row: u32,
    level: i16,
    out: &mut [u8],
) -> Result<LookAnswer, StepStop>
    requires tried { IsTried channel.old.kept }
    requires row { row < 8 }
    requires word { length out.old ≡ 48 }
    ensures { IsTried channel.new.kept }
{
    let by = tag(call);
    let answer = looked(channel, by, row)?;
    if let LookAnswer::Found(look) = answer {
        let _ = sensed_for(channel, by, look.at, PLACE, level, out);
        left(channel, by, look.at);
    }
    Ok(answer)
}

// What the page of row 3 at the place senses at a level.
fn sensed<P: Policy>(
    channel: &mut Channel<FaultyDie, P>,
    call: u32,
    level: i16,
) -> Result<[u8; 48], StepStop>
    requires { IsTried channel.old.kept }
    ensures { IsTried channel.new.kept }
{
    let mut out = [0; 48];
    let _ = read(channel, call, 3, level, &mut out)?;
    Ok(out)
}

// Whether a write into the slot was made.
fn is_written(answer: Result<WriteAnswer, StepStop>, slot: Slot) -> bool {
    answer == Ok(WriteAnswer::Written { slot })
}

// Row 3 is written twice and looked at, its newer page is sensed, and the look is left.
fn entries_of_a_read() -> [Entry; 5] {
    let found = Row::Page {
        slot: slot(0, 1),
        serial: 1,
    };
    [
        write_entry(0, 3, slot(0, 0)),
        write_entry(1, 3, slot(0, 1)),
        entry(
            2,
            Kind::Look {
                row: 3,
                found,
                closed: true,
            },
        ),
        entry(
            2,
            Kind::Sense {
                at: 2,
                place: PLACE,
                level: 0,
            },
        ),
        entry(2, Kind::Leave { at: 2 }),
    ]
}

#[test]
fn a_row_is_written_again_and_read(rt: HostRuntime) -> Result<(), Fail> {
    let mut channel = begun(rt.alloc(), Greedy::new(), 4096)?;
    assert!(rt; is_written(write(&mut channel, 0, 3, &FIRST), slot(0, 0)));
    assert!(rt; is_written(write(&mut channel, 1, 3, &SECOND), slot(0, 1)));
    let look = Look {
        at: 2,
        row: 3,
        slot: slot(0, 1),
        serial: 1,
        closed: true,
    };
    let mut out = [0; 48];
    assert_eq!(rt;
        read(&mut channel, 2, 3, 0, &mut out),
        Ok(LookAnswer::Found(look))
    );
    assert_eq!(rt; out, SECOND);
    let history = entries_of_a_read();
    assert_eq!(rt; channel.history(), history.as_slice());
    assert_eq!(rt; channel.finish().1.as_slice(), history.as_slice());
    Ok(())
}

#[test]
fn a_row_is_trimmed_and_empty(rt: HostRuntime) -> Result<(), Fail> {
    let mut channel = begun(rt.alloc(), Greedy::new(), 4096)?;
    let mut out = [0; 48];
    assert_eq!(rt;
        read(&mut channel, 0, 3, 0, &mut out),
        Ok(LookAnswer::Empty)
    );
    assert!(rt; is_written(write(&mut channel, 1, 3, &FIRST), slot(0, 0)));
    assert_eq!(rt; trim(&mut channel, 2, 3), Ok(()));
    assert_eq!(rt;
        read(&mut channel, 3, 3, 0, &mut out),
        Ok(LookAnswer::Empty)
    );
    let history = [
        entry(
            0,
            Kind::Look {
                row: 3,
                found: Row::Empty,
                closed: false,
            },
        ),
        entry(
            1,
            Kind::Write {
                row: 3,
                slot: slot(0, 0),
            },
        ),
        entry(2, Kind::Trim { row: 3 }),
        entry(
            3,
            Kind::Look {
                row: 3,
                found: Row::Empty,
                closed: false,
            },
        ),
    ];
    assert_eq!(rt; channel.history(), history.as_slice());
    Ok(())
}

#[test]
fn a_look_finds_no_room_in_the_history(rt: HostRuntime) -> Result<(), Fail> {
    let mut channel = begun(rt.alloc(), Greedy::new(), 256)?;
    assert!(rt; is_written(write(&mut channel, 0, 5, &FIRST), slot(0, 0)));
    let full = Err(StepStop::HistoryFull { length: 1 });
    assert_eq!(rt; read(&mut channel, 1, 5, 0, &mut [0; 48]), full);
    assert_eq!(rt; channel.history().len(), 1);
    Ok(())
}

#[test]
fn a_write_needs_room_after_twelve(rt: HostRuntime) -> Result<(), Fail> {
    let mut channel = begun(rt.alloc(), Greedy::new(), 4096)?;
    for call in 0..12 {
        let next = slot((call / 4) as u16, call % 4);
        assert!(rt;
            is_written(write(&mut channel, call, call % 8, &FIRST), next),
            "call {call}"
        );
    }
    let answer = write(&mut channel, 12, 0, &FIRST);
    assert_eq!(rt; answer, Ok(WriteAnswer::NeedRoom));
    assert_eq!(rt; channel.history().len(), 12);
    Ok(())
}

// A channel with a page of row 3 at the place, and another page of its stripe.
fn written<P: Policy>(alloc: Global, policy: P) -> Result<Channel<FaultyDie, P>, Fail>
    ensures { IfOk result (λ channel. IsTried channel.kept) }
{
    let mut channel = begun(alloc, policy, 4096)?;
    let _ = write(&mut channel, 0, 2, &FIRST)?;
    let _ = write(&mut channel, 1, 3, &SECOND)?;
    Ok(channel)
}

#[test]
fn an_aged_page_is_clean_at_a_lower_level(rt: HostRuntime) -> Result<(), Fail> {
    let mut channel = written(rt.alloc(), Greedy::new())?;
    assert_eq!(rt; age(&mut channel, 2, 2, 0, 150), Ok(AgeAnswer::Aged));
    let aged = entry(
        2,
        Kind::Age {
            die: 2,
            sb: 0,
            amount: 150,
        },
    );
    assert_eq!(rt; channel.history().last(), Some(&aged));
    assert_eq!(rt; sensed(&mut channel, 3, 0), Ok(ONES));
    assert_eq!(rt; sensed(&mut channel, 4, -49), Ok(ONES));
    assert_eq!(rt; sensed(&mut channel, 5, -50), Ok(SECOND));
    assert_eq!(rt; sensed(&mut channel, 6, -60), Ok(SECOND));
    Ok(())
}

#[test]
fn ageing_another_block_changes_nothing(rt: HostRuntime) -> Result<(), Fail> {
    let mut channel = written(rt.alloc(), Greedy::new())?;
    assert_eq!(rt; age(&mut channel, 2, 1, 0, 150), Ok(AgeAnswer::Aged));
    assert_eq!(rt; age(&mut channel, 3, 0, 0, 150), Ok(AgeAnswer::Aged));
    assert_eq!(rt; age(&mut channel, 4, 2, 1, 150), Ok(AgeAnswer::Aged));
    assert_eq!(rt; sensed(&mut channel, 5, 100), Ok(SECOND));
    assert_eq!(rt; sensed(&mut channel, 6, 101), Ok(ONES));
    Ok(())
}

#[test]
fn ageings_add_up_to_the_erased_level(rt: HostRuntime) -> Result<(), Fail> {
    let mut channel = written(rt.alloc(), Greedy::new())?;
    assert_eq!(rt; age(&mut channel, 2, 2, 0, 100), Ok(AgeAnswer::Aged));
    assert_eq!(rt; sensed(&mut channel, 3, 0), Ok(SECOND));
    assert_eq!(rt; age(&mut channel, 4, 2, 0, 50), Ok(AgeAnswer::Aged));
    assert_eq!(rt; sensed(&mut channel, 5, 0), Ok(ONES));
    assert_eq!(rt; sensed(&mut channel, 6, -60), Ok(SECOND));
    assert_eq!(rt; age(&mut channel, 7, 2, 0, 16_383), Ok(AgeAnswer::Aged));
    assert_eq!(rt; sensed(&mut channel, 8, -99), Ok(ONES));
    assert_eq!(rt; sensed(&mut channel, 9, -100), Ok(ZEROS));
    Ok(())
}

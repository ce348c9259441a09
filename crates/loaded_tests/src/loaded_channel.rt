// The channel of a small drive that begins with a superblock to collect.
ghost use Rattle.std.specs.Prelude.{◌≡◌, IfOk, IsTrue, length};
ghost use Rattle.std.specs.List.{list_all};
ghost use Rattle.ssd_geo.specs.Shape.{HasSizes};
ghost use Rattle.ssd_histories.specs.HistoryExamples.{small_sizes};
ghost use Rattle.ssd_histories.specs.Standing.{is_weak_block};
ghost use Rattle.loaded_tests.specs.LoadedChannel.{HasBegunLoaded, loaded_base, loaded_levels};

use crate::loaded_dies::{CELLS, LAW, loaded_dies};
use chan_state::Channel;
use die_model::SimDie;
use ssd_geo::{BlockBase, ChannelBase, Items, Row, SbState, Shape, Slot, Weak};
use std::alloc::{AllocError, Global};
use std::test::Fail;
use victim::Policy;

// Superblock 0: each of its slots is used.
const LOADED: BlockBase = BlockBase {
    state: SbState::Sealed,
    erases: 7,
    used: 4,
};

const BLANK: BlockBase = BlockBase {
    state: SbState::Free,
    erases: 0,
    used: 0,
};

// The page of row 0, which call 9 of the session before wrote into slot 1 of superblock 0.
const LIVE: Row = Row::Page {
    slot: Slot { sb: 0, index: 1 },
    serial: 9,
};

// The word of that page: its serial, its row, its mark, its data and their parity.
const WORD: [u8; 48] = [
    9, 0, 0, 0, 0, 0, 0, 0, 0, 0, 0, 0, 80, 71, 69, 49, 17, 34, 51, 68, 85, 102, 119, 136, 15, 2,
    14, 232, 6, 137, 186, 66, 14, 1, 7, 116, 43, 231, 255, 185, 69, 101, 129, 54, 225, 128, 85,
    144,
];

/// The entries of the base matrix.
pub(crate) const ENTRIES: [i16; 18] = [0, 1, -1, 1, 0, -1, 5, -1, 7, 0, 0, 0, -1, 11, 3, 1, -1, 0];

/// No block is erased so often.
pub(crate) const NEVER: u32 = u32::MAX;

// The levels of a page that holds the word: a cell of a bit 1 is left as it was erased.
fn word_levels() -> [i16; CELLS]
    ensures { length result ≡ CELLS }
{
    let mut levels = [LAW.programmed; CELLS];
    for bit in 0..CELLS {
        if WORD[bit / 8] >> (bit % 8) & 1 == 1 {
            levels[bit] = LAW.erased;
        }
    }
    levels
}

// What the channel begins with.
fn loaded_base(alloc: Global, shape: Shape, weak: &[Weak]) -> Result<ChannelBase, AllocError>
    ensures { IfOk result (λ base. base ≡ loaded_base shape weak.now) }
{
    let empty = Row::Empty;
    let read_levels = small_levels(alloc)?;
    Ok(ChannelBase {
        shape,
        session: 1,
        blocks: Items::new(vec![in alloc; LOADED, BLANK, BLANK, BLANK]?),
        rows: Items::new(vec![in alloc; LIVE, empty, empty, empty, empty, empty, empty, empty]?),
        sum: Items::new(vec![in alloc; 0; 48]?),
        channel: 0,
        entries: Items::new(Vec::from_slice(alloc, &ENTRIES)?),
        read_levels,
        iterations: 8,
        step: 10,
        law: LAW,
        weak: Items::new(Vec::from_slice(alloc, weak)?),
    })
}

/// The read levels of the drive.
pub(crate) fn small_levels(alloc: Global) -> Result<Items<i16>, AllocError>
    ensures { IfOk result (λ levels. levels ≡ loaded_levels) }
{
    Ok(Items::new(vec![in alloc; 0, -60]?))
}

/// The sizes of the drive.
pub(crate) fn small_shape() -> Result<Shape, Fail>
    ensures { IfOk result (λ shape. HasSizes shape small_sizes) }
{
    Ok(Shape::new(1, 1, 3, 4, 2, 64, 3, 6, 8, 8)?)
}

// The channel of the drive with these weak blocks.
fn begun_with<P: Policy>(
    alloc: Global,
    shape: Shape,
    weak: &[Weak],
    policy: P,
) -> Result<Channel<SimDie, P>, Fail>
    requires sizes { HasSizes shape small_sizes }
    requires weak { IsTrue (list_all (is_weak_block shape) weak.now) }
    ensures begun { IfOk result (λ channel. HasBegunLoaded shape channel.kept (P.told channel.policy)) }
    ensures shape { IfOk result (λ channel. channel.kept.shape ≡ shape) }
{
    let levels = word_levels();
    let base = loaded_base(alloc, shape, weak)?;
    let dies = loaded_dies(alloc, shape, weak, &levels)?;
    let channel = Channel::start(alloc, base, dies, policy, 4096)?;
    Ok(channel)
}

// The block of a die in superblock 0, which is weak from so many erases on.
fn weak(die: u8, from: u32) -> Weak
    ensures { result ≡ record { channel = 0; die = die; sb = 0; from = from } }
{
    Weak {
        channel: 0,
        die,
        sb: 0,
        from,
    }
}

/// The channel of the drive. The block of each die in superblock 0 is weak from so many erases on.
pub(crate) fn begun<P: Policy>(
    alloc: Global,
    shape: Shape,
    from: [u32; 3],
    policy: P,
) -> Result<Channel<SimDie, P>, Fail>
    requires { HasSizes shape small_sizes }
    ensures begun { IfOk result (λ channel. HasBegunLoaded shape channel.kept (P.told channel.policy)) }
    ensures shape { IfOk result (λ channel. channel.kept.shape ≡ shape) }
{
    let [zero, one, two] = from;
    let weak = [weak(0, zero), weak(1, one), weak(2, two)];
    begun_with(alloc, shape, &weak, policy)
}

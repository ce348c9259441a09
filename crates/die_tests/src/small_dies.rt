// Three dies with 4 blocks of 2 pages of 48 bytes, and calls that name blocks and pages of theirs.
ghost use Rattle.std.specs.Prelude.{◌≡◌, ◌<◌, IfOk, is_some, true, [], ◌∷◌};
ghost use Rattle.ssd_geo.specs.StripeLaws.{IsPlace};
ghost use Rattle.die_model.specs.Listed.{listed_state};
ghost use Rattle.die_model.specs.SimState.{state_of};
ghost use Rattle.die_tests.specs.SmallDies.{AreTried, AreUnprogrammed, IsSmall, IsStartDie, IsTriedStart};

use chan_dies::{Dies, EraseEnd, ProgramEnd};
use die_model::{ListedFaults, SimDie};
use onfi_cmd::{Die, DiePlan};
use ssd_geo::{CellLaw, Items, Place, Shape, Slot, Weak};
use std::alloc::{AllocError, Global};
use std::test::Fail;

// The words of the two slots of stripe 0, and their sum.
pub(crate) const FIRST: [u8; 48] = [0x0f; 48];

pub(crate) const SECOND: [u8; 48] = [0x35; 48];

pub(crate) const SUM: [u8; 48] = [0x3a; 48];

const LAW: CellLaw = CellLaw {
    erased: -100,
    programmed: 100,
    spread: 0,
    seed: 1,
};

// Mounts a die as the one of a number.
fn mounted<D: Die>(
    alloc: Global,
    die: D,
    number: u8,
    shape: Shape,
    weak: &[Weak],
) -> Result<D, Fail>
    requires tells { is_some (D.state die).told ≡ true }
    requires number { number < 3 }
    requires small { IsSmall shape }
    ensures { IfOk result (λ held. IsStartDie shape number (D.state held)) }
{
    let mut die = die;
    let plan = DiePlan {
        channel: 0,
        die: number,
        shape,
        law: LAW,
        weak: Items::new(Vec::from_slice(alloc, weak)?),
    };
    if die.mount(alloc, &plan).is_err() {
        return Err("not mounted".into());
    }
    Ok(die)
}

// The sizes of the dies.
fn small_shape() -> Result<Shape, Fail>
    ensures { IfOk result (λ shape. IsSmall shape) }
{
    let shape = Shape::new(1, 1, 3, 4, 2, 64, 3, 6, 8, 8)?;
    if shape.word_bytes() != 48 {
        return Err("other words".into());
    }
    Ok(shape)
}

// A list of three dies.
fn three_of<D: Die>(alloc: Global, zero: D, one: D, two: D) -> Result<Vec<D>, AllocError>
    ensures { IfOk result (λ dies. dies.items ≡ zero ∷ one ∷ two ∷ []) }
{
    let mut dies = Vec::new(alloc);
    dies.push(zero)?;
    dies.push(one)?;
    dies.push(two)?;
    Ok(dies)
}

// The dies of a channel, blank but for the weak blocks.
pub(crate) fn started<D: Die>(
    alloc: Global,
    first: D,
    second: D,
    third: D,
    weak: &[Weak],
) -> Result<Dies<D>, Fail>
    requires first_tells { is_some (D.state first).told ≡ true }
    requires second_tells { is_some (D.state second).told ≡ true }
    requires third_tells { is_some (D.state third).told ≡ true }
    ensures { IfOk result (λ held. IsTriedStart held) }
{
    let shape = small_shape()?;
    let zero = mounted(alloc, first, 0, shape, weak)?;
    let one = mounted(alloc, second, 1, shape, weak)?;
    let two = mounted(alloc, third, 2, shape, weak)?;
    let dies = three_of(alloc, zero, one, two)?;
    let sum = vec![in alloc; 0; 48]?;
    let Ok(held) = Dies::new(alloc, dies, shape, sum) else {
        return Err("no memory".into());
    };
    Ok(held)
}

// Three simulated dies.
pub(crate) fn simulated(alloc: Global, weak: &[Weak]) -> Result<Dies<SimDie>, Fail>
    ensures { IfOk result (λ held. IsTriedStart held) }
{
    started(alloc, SimDie::new(), SimDie::new(), SimDie::new(), weak)
}

// A simulated die that fails these of its runs.
pub(crate) fn failing(alloc: Global, runs: &[u64]) -> Result<ListedFaults<SimDie>, Fail>
    ensures { IfOk result (λ die. is_some (listed_state state_of die).told ≡ true) }
{
    Ok(ListedFaults::new(
        SimDie::new(),
        Vec::from_slice(alloc, runs)?,
        Vec::new(alloc),
    ))
}

// Programs the two slots of stripe 0 of superblock 0.
pub(crate) fn program_stripe<D: Die>(dies: &mut Dies<D>) -> (ProgramEnd, ProgramEnd)
    requires tried { AreTried dies.old }
    requires blank { AreUnprogrammed dies.old }
    ensures { AreTried dies.new }
{
    let first = dies.program(Slot { sb: 0, index: 0 }, &FIRST);
    let second = dies.program(Slot { sb: 0, index: 1 }, &SECOND);
    (first, second)
}

// Erases superblock 0.
pub(crate) fn erase<D: Die>(dies: &mut Dies<D>) -> EraseEnd
    requires { AreTried dies.old }
    ensures { IsSmall dies.new.shape }
{
    dies.erase(0)
}

// Ages a block of superblock 0.
pub(crate) fn age<D: Die>(dies: &mut Dies<D>, die: u8, amount: u16) -> Result<(), Fail>
    requires small { IsSmall dies.old.shape }
    requires die { die < 3 }
    ensures { IsSmall dies.new.shape }
{
    if dies.age(die, 0, amount).is_err() {
        return Err("not aged".into());
    }
    Ok(())
}

// Senses a page at a level.
pub(crate) fn sense<D: Die>(dies: &mut Dies<D>, place: Place, level: i16) -> Result<[u8; 48], Fail>
    requires small { IsSmall dies.old.shape }
    requires place { IsPlace 3 4 2 place }
    ensures { IsSmall dies.new.shape }
{
    let mut out = [0x55; 48];
    if dies.sense(place, level, &mut out).is_err() {
        return Err("not sensed".into());
    }
    Ok(out)
}

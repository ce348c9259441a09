ghost use Rattle.std.specs.Prelude.{◌≡◌, ◌+◌, ◌≤◌, length, map, vec_capacity};
ghost use Rattle.ssd_geo.specs.Coding.{word_bytes_in};
ghost use Rattle.ssd_geo.specs.Stripe.{is_last_of_stripe};
ghost use Rattle.ssd_geo.specs.StripeLaws.{IsPlace, IsSlot};
ghost use Rattle.chan_dies.specs.DiesState.{AreMounted, programmed_at};
ghost use Rattle.chan_dies.specs.OneDie.{ChangesDie, PutsPage};
ghost use Rattle.chan_dies.specs.Operations.{EndsAs};
ghost use Rattle.chan_dies.specs.Programming.{EndsProgram, HasNextPages, is_open_after};

use crate::ProgramEnd;
use crate::one_die::{DieEnd, program_page};
use onfi_cmd::{Cycle, Die};
use ssd_geo::{Place, Shape, Slot};

/// Programs a word into the page of a slot, and with the last slot of a stripe a sum into the page of its parity.
pub(crate) fn program_dies<D: Die>(
    dies: &mut Vec<D>,
    cycles: &mut Vec<Cycle>,
    shape: &Shape,
    slot: Slot,
    word: &[u8],
    sum: &[u8],
) -> ProgramEnd
    requires mounted { AreMounted shape.now (map D.state dies.old.items) }
    requires slot { IsSlot shape.now.dies shape.now.superblocks shape.now.pages slot }
    requires next { HasNextPages shape.now slot (map D.state dies.old.items) }
    requires word { length word.now ≡ word_bytes_in shape.now }
    requires sum { length sum.now ≡ word_bytes_in shape.now }
    requires room { word_bytes_in shape.now + 7 ≤ vec_capacity cycles.old }
    ensures end { EndsProgram shape.now slot word.now sum.now (map D.state dies.old.items) (map D.state dies.new.items) result }
    ensures mounted { AreMounted shape.now (map D.state dies.new.items) }
    ensures room { vec_capacity cycles.old ≤ vec_capacity cycles.new }
{
    let place = shape.place_of(slot);
    match program_at(dies, cycles, shape, place, word) {
        DieEnd::Passed => {}
        DieEnd::Failed => return ProgramEnd::Failed { die: place.die },
        DieEnd::Fault => return ProgramEnd::Fault { die: place.die },
    }
    if !is_last(shape, slot) {
        return ProgramEnd::Programmed;
    }
    // The parity goes with the last data slot, so a closed stripe is never without it.
    let parity = shape.parity_place(slot.sb, place.page);
    match program_at(dies, cycles, shape, parity, sum) {
        DieEnd::Passed => ProgramEnd::Programmed,
        DieEnd::Failed => ProgramEnd::Failed { die: parity.die },
        DieEnd::Fault => ProgramEnd::Fault { die: parity.die },
    }
}

/// Whether a stripe is open after a program of a slot.
pub(crate) fn is_open_after(shape: &Shape, slot: Slot, end: ProgramEnd) -> bool
    ensures { result ≡ is_open_after shape.now slot end }
{
    match end {
        ProgramEnd::Programmed => !is_last(shape, slot),
        ProgramEnd::Failed { .. } | ProgramEnd::Fault { .. } => false,
    }
}

// Whether a slot is the last of its stripe.
fn is_last(shape: &Shape, slot: Slot) -> bool
    ensures { result ≡ is_last_of_stripe shape.now.dies slot.index }
{
    let data = shape.dies as u32 - 1;
    slot.index % data + 1 == data
}

// Programs the page of a place.
fn program_at<D: Die>(
    dies: &mut Vec<D>,
    cycles: &mut Vec<Cycle>,
    shape: &Shape,
    place: Place,
    word: &[u8],
) -> DieEnd
    requires mounted { AreMounted shape.now (map D.state dies.old.items) }
    requires place { IsPlace shape.now.dies shape.now.superblocks shape.now.pages place }
    requires next { place.page ≡ programmed_at (map D.state dies.old.items) place }
    requires word { length word.now ≡ word_bytes_in shape.now }
    requires room { word_bytes_in shape.now + 7 ≤ vec_capacity cycles.old }
    ensures end { ChangesDie place.die (EndsAs (PutsPage place.sb place.page word.now) place.sb result)
        (map D.state dies.old.items) (map D.state dies.new.items) }
    ensures mounted { AreMounted shape.now (map D.state dies.new.items) }
    ensures room { vec_capacity cycles.old ≤ vec_capacity cycles.new }
{
    let die = &mut dies[place.die as usize];
    program_page(die, cycles, shape, place, word)
}

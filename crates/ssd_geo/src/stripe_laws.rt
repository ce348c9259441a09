//! Laws of sizes, slots, places and due pages. Each is the contract of a function that does nothing.
ghost use Rattle.ssd_geo.specs.Limits.{FaultlessSizesAreWithin};
ghost use Rattle.ssd_geo.specs.StripeLaws.{SlotsHavePlaces, PlacesHaveSlots, PlacesDiffer, DataDiesAreTheOthers, DuePagesAddUp, PagesRise, DuePagesStep, DuePagesEnds};

/// Each slot has a data place of its channel, which gives the slot back; each data place has a slot, which gives
/// the place back; so no two slots have one place.
pub fn slots_and_data_places_match()
    ensures slots { SlotsHavePlaces }
    ensures places { PlacesHaveSlots }
    ensures differ { PlacesDiffer }
{}

/// The data dies of a stripe are all dies but the parity's, in rising order.
pub fn data_dies_are_the_others()
    ensures { DataDiesAreTheOthers }
{}

/// The due pages are none without a used slot, rise with each used slot where its page is programmed, and are all
/// pages in the end.
pub fn due_pages_rise()
    ensures ends { DuePagesEnds }
    ensures next_page { PagesRise }
    ensures step { DuePagesStep }
{}

/// The due pages of all dies are as many as the used slots and the closed stripes together.
pub fn due_pages_add_up()
    ensures { DuePagesAddUp }
{}

/// No size is out of its range exactly where all sizes are within the limits.
pub fn faultless_sizes_are_within()
    ensures { FaultlessSizesAreWithin }
{}

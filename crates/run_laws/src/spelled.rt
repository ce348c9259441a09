//! Laws of the histories that a text spells.
ghost use Rattle.run_laws.specs.SpelledPasts.{CallsInOrderAreSpelled, LawfulPastsAreSpelled};

/// Each entry of a lawful past has its numbers in the fields of its line, where its call has.
pub fn lawful_pasts_are_spelled()
    ensures { LawfulPastsAreSpelled }
{}

/// So a text spells the histories of calls that are in order, of every verb.
pub fn calls_in_order_are_spelled()
    ensures { CallsInOrderAreSpelled }
{}

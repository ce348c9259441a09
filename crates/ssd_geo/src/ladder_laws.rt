//! A law of ladders, the contract of a function that does nothing.
ghost use Rattle.ssd_geo.specs.LadderLaws.{LaddersEnd};

/// A ladder comes to an answer after a bounded number of senses, whatever they give.
pub fn ladders_end()
    ensures { LaddersEnd }
{}

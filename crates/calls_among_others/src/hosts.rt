//! Laws of trims, ageings and reads among the entries of others. Each is the contract of a function that does nothing.
ghost use Rattle.calls_among_others.specs.HostCalls.{AgesAmongAreAges, ReadsAmongAreReads, TrimsAmongAreTrims};

/// A trim is a trim, also where others came.
pub fn trims_among_are_trims()
    ensures { TrimsAmongAreTrims }
{}

/// So is an ageing, whether the die failed or not.
pub fn ages_among_are_ages()
    ensures { AgesAmongAreAges }
{}

/// So is a read.
pub fn reads_among_are_reads()
    ensures { ReadsAmongAreReads }
{}

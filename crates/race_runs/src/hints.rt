//! Laws of the hints of a race. Each is the contract of a function that does nothing.
ghost use Rattle.race_runs.specs.RaceHints.{DrainedPagesWereHinted, DropsMetAFullQueue, EmptyQueuesWereDrained, HintsAddUp};

/// The hints that were dropped are among those that came, and those that were taken among the others.
pub fn hints_add_up()
    ensures { HintsAddUp }
{}

/// The pages of all drains' replies are, counted with repeats, among those of the reads that were hints.
pub fn drained_pages_were_hinted()
    ensures { DrainedPagesWereHinted }
{}

/// Where a hint was dropped, at least 256 pages were pushed.
pub fn drops_met_a_full_queue()
    ensures { DropsMetAFullQueue }
{}

/// What an actor hinted before it found the queue empty was drained, where no hint was dropped and each call was answered.
pub fn empty_queues_were_drained()
    ensures { EmptyQueuesWereDrained }
{}

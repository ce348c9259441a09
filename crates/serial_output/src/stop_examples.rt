//! Worked runs that stop for want of room, and what just misses.
ghost use Rattle.serial_output.specs.StopExamples.{AreWholeAtLimit, ChooseAlikeAtLimit, ChooseApart, NeverStopAtLimit};
ghost use Rattle.serial_output.specs.StopExamples.{ShortRunsStop, StopAtLimit, aged, not_aged, short_past, whole_past};
ghost use Rattle.ssd_geo.specs.declared.reply.Reply.TheVariants.{DieFault, Ok};

/// An ageing, a trim and a read stop before the read where the history has room for 257 entries: these are stopped runs as
/// `choices_decide_stops` speaks of them.
pub fn example_stops()
    ensures stops { StopAtLimit 257 aged Ok }
    ensures alike { ChooseAlikeAtLimit 257 (short_past aged) (short_past aged) }
{}

/// So the run of these calls is one of those of which `inputs_decide_endings` speaks.
pub fn example_stopped_run()
    ensures { ShortRunsStop }
{}

/// With room for one entry more they are a whole run, and none that stopped: no run stops there that chooses alike.
pub fn example_just_whole()
    ensures whole { AreWholeAtLimit 258 aged Ok }
    ensures alike { ChooseAlikeAtLimit 258 (whole_past aged) (short_past aged) }
    ensures never { NeverStopAtLimit 258 aged Ok }
{}

/// Where the die's call fails in the ageing the run stops in the same call, with another history: it made another choice.
pub fn example_other_choice()
    ensures stops { StopAtLimit 257 not_aged (DieFault 0) }
    ensures apart { ChooseApart (short_past aged) (short_past not_aged) }
{}

//! Laws on what decides where a serial run ends.
ghost use Rattle.serial_output.specs.OneEnding.{ChoicesDecideEndings, ChoicesDecideStops, ChoicesDecideWhetherItStops};
ghost use Rattle.serial_output.specs.OneEnding.{InputsDecideEndings, ViewsDecideEndings};

/// Two serial runs of the same calls from the same starts that stopped, and choose alike, stopped in the same call, on the
/// same channel and with the same entries: over one past it is decided which room the next entry asks for.
pub fn choices_decide_stops()
    ensures { ChoicesDecideStops }
{}

/// Where they choose alike, not one is whole and the other stopped.
pub fn choices_decide_whether_it_stops()
    ensures { ChoicesDecideWhetherItStops }
{}

/// So two runs of one input that choose alike end in the same way, and have one output, whether they are whole or stopped.
pub fn choices_decide_endings()
    ensures { ChoicesDecideEndings }
{}

/// Where each policy's view is told and no die's call failed, no choice is left.
pub fn views_decide_endings()
    ensures { ViewsDecideEndings }
{}

/// So it is where no die's count of faults rose.
pub fn inputs_decide_endings()
    ensures { InputsDecideEndings }
{}

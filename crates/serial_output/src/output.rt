//! Laws on what decides a serial run.
ghost use Rattle.serial_output.specs.OneOutput.{ChoicesDecideOutput, ChoicesDecideRuns, InputsDecideOutput, ViewsDecideOutput};

/// Two serial runs of the same calls from the same starts are the same where they choose alike: wherever both came to the same
/// past, they pick the same superblock if both pick one, and the same die's call failed, or none.
pub fn choices_decide_runs()
    ensures { ChoicesDecideRuns }
{}

/// So are the pasts, replies, drops and texts of two whole runs.
pub fn choices_decide_output()
    ensures { ChoicesDecideOutput }
{}

/// Where each policy's view is told and no die's call failed, no choice is left: two whole runs of one input print one text.
pub fn views_decide_output()
    ensures { ViewsDecideOutput }
{}

/// So it is where no die's count of faults rose, which the counts at the end show.
pub fn inputs_decide_output()
    ensures { InputsDecideOutput }
{}

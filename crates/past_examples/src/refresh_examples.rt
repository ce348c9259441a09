//! Steps that are a refresh, and steps that just miss.
ghost use Rattle.past_examples.specs.RefreshExamples.{IsCopyIn, IsNoRefreshIn, IsReadIn, IsRefreshIn, drained_run, lost_run};
ghost use Rattle.past_examples.specs.WorkedRuns.{IsLawfulRun};

/// The history is lawful in which a page that no sense finds is refreshed in vain and then condemned.
#[tactic(auto, unfolding(ssd_geo::specs::Noise::noise_word))]
pub fn lost_page()
    ensures { IsLawfulRun lost_run }
{}

/// A refresh moves a page that was recovered, and does nothing between the senses and the leave of one that wasn't.
pub fn example_refreshes()
    ensures moved { IsRefreshIn drained_run 3 0 }
    ensures uncorrectable { IsRefreshIn lost_run 2 0 }
{}

/// What just misses: the same steps for another row; a read, which leaves a page that was recovered where it is; and a copy
/// that condemns its page.
pub fn example_no_refreshes()
    ensures other_row { IsNoRefreshIn drained_run 3 1 }
    ensures is_read { IsReadIn drained_run 2 0 }
    ensures read { IsNoRefreshIn drained_run 2 0 }
    ensures is_copy { IsCopyIn lost_run 3 }
    ensures condemned { IsNoRefreshIn lost_run 3 0 }
{}

// One refresh of a row.
ghost use Rattle.std.specs.Prelude.{◌≡◌, ◌<◌};
ghost use Rattle.chan_calls.specs.Caller.{SameCaller, Serves};
ghost use Rattle.chan_calls.specs.Calls.{GoesOnFor};
ghost use Rattle.chan_calls.specs.Copied.{refresh_of_copy};
ghost use Rattle.chan_calls.specs.Workers.{MayCall};
ghost use Rattle.refresh.specs.Refreshes.{MakesRefresh};

use chan_calls::{CopyReply, Gate, Steps, Worker};
use chan_state::LookAnswer;
use ssd_geo::{RefreshReply, StepStop, Tag};

// The reply of a refresh whose page was copied with this one.
fn refresh_of_copy(reply: CopyReply) -> RefreshReply
    ensures { result ≡ refresh_of_copy reply }
{
    match reply {
        CopyReply::Moved => RefreshReply::Moved,
        CopyReply::Changed => RefreshReply::Changed,
        CopyReply::Condemned | CopyReply::Uncorrectable => RefreshReply::Uncorrectable,
        CopyReply::NoRoom => RefreshReply::NoRoom,
        CopyReply::ReadOnly => RefreshReply::ReadOnly,
        CopyReply::Failed => RefreshReply::Failed,
        CopyReply::DieFault { die } => RefreshReply::DieFault { die },
    }
}

/// Looks at a row and copies the page that it names to a new slot. A page that can't be recovered stays as it is, and its
/// row names it on. Where the history has no room, or memory is refused, nothing was done.
pub fn refresh<S: Steps, G: Gate>(
    worker: &mut Worker,
    steps: &mut S,
    gate: &G,
    tag: Tag,
    row: u32,
) -> Result<RefreshReply, StepStop>
    requires actor { Serves (S.view steps.old) tag.actor }
    requires row { row < worker.old.shape.rows }
    requires may { MayCall worker.old (S.view steps.old) (S.stands steps.old) }
    ensures worker { worker.new ≡ record worker.old { data_bytes = worker.new.data_bytes } }
    ensures caller { SameCaller (S.view steps.old) (S.view steps.new) }
    ensures goes_on { GoesOnFor worker.old
        (S.view steps.old) (S.view steps.new) (S.stands steps.old) (S.stands steps.new) }
    ensures made { MakesRefresh worker.old (S.view steps.old) (S.stands steps.old)
        tag row (S.view steps.new).seen result }
{
    match steps.look(tag, row)? {
        LookAnswer::Empty => Ok(RefreshReply::Empty),
        LookAnswer::Lost => Ok(RefreshReply::Uncorrectable),
        LookAnswer::Found(look) => {
            Ok(refresh_of_copy(worker.copy(steps, gate, tag, look, false)))
        }
    }
}

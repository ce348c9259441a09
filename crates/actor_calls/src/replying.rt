// The replies of calls.
ghost use Rattle.std.specs.Prelude.{◌≡◌, [], length};
ghost use Rattle.std.specs.Vec.{vec_capacity};
ghost use Rattle.actor_calls.specs.Replying.{HasRoomFor};
ghost use Rattle.calls_among_others.specs.HostCalls.{reply_to_age};
ghost use Rattle.chan_calls.specs.Calls.{reply_of};
ghost use Rattle.collector.specs.AloneReplies.{reply_to_collect, reply_to_write};
ghost use Rattle.ssd_histories.specs.Replies.{reply_of_refresh};

use chan_calls::{ReadReply, Worker};
use chan_state::AgeAnswer;
use collector::{CollectReply, WriteReply};
use ssd_geo::{Items, RefreshReply, Reply};

// The reply to an ageing.
pub fn reply_to_age(answer: AgeAnswer) -> Reply
    ensures { result ≡ reply_to_age answer }
{
    match answer {
        AgeAnswer::Aged => Reply::Ok,
        AgeAnswer::DieFault { die } => Reply::DieFault { die },
    }
}

// The reply of a write that ended so.
pub fn reply_to_write(ended: WriteReply) -> Reply
    ensures { result ≡ reply_to_write ended }
{
    match ended {
        WriteReply::Written => Reply::Ok,
        WriteReply::Full => Reply::Full,
        WriteReply::ReadOnly => Reply::ReadOnly,
        WriteReply::DieFault { die } => Reply::DieFault { die },
    }
}

// The reply of a collect that ended so.
pub fn reply_to_collect(ended: CollectReply) -> Reply
    ensures { result ≡ reply_to_collect ended }
{
    match ended {
        CollectReply::Collected { sb } => Reply::Collected { sb },
        CollectReply::Retired { sb } => Reply::Retired { sb },
        CollectReply::DieFault { die } => Reply::DieFault { die },
        CollectReply::Idle => Reply::Idle,
    }
}

// The reply of a call of one page, from that of its refresh.
pub fn reply_of_refresh(reply: RefreshReply) -> Reply
    ensures { result ≡ reply_of_refresh reply }
{
    match reply {
        RefreshReply::Moved => Reply::Moved,
        RefreshReply::Changed => Reply::Changed,
        RefreshReply::Empty => Reply::Empty,
        RefreshReply::Uncorrectable => Reply::Uncorrectable,
        RefreshReply::NoRoom => Reply::NoRoom,
        RefreshReply::ReadOnly => Reply::ReadOnly,
        RefreshReply::Failed => Reply::Failed,
        RefreshReply::DieFault { die } => Reply::DieFault { die },
    }
}

// The reply of a read, with a copy of the data that the worker recovered, in memory that was set aside.
pub fn reply_of(mut room: Vec<u8>, answer: ReadReply, worker: &Worker) -> Reply
    requires empty { room.items ≡ [] }
    requires room { HasRoomFor answer worker.now.data_bytes (vec_capacity room) }
    ensures { result ≡ reply_of answer worker.now.data_bytes }
{
    match answer {
        ReadReply::Empty => Reply::Empty,
        ReadReply::Uncorrectable => Reply::Uncorrectable,
        ReadReply::DieFault { die } => Reply::DieFault { die },
        ReadReply::Bytes { rung } => {
            let Ok(()) = room.extend_from_slice(worker.bytes()) else {
                unreachable!();
            };
            Reply::Data {
                rung,
                bytes: Items::new(room),
            }
        }
    }
}

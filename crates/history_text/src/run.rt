// What a run prints.
ghost use Rattle.std.specs.Prelude.{◌≡◌, ℕ, ◌+◌, ◌-◌, ◌≤◌, [], ◌++◌, length, sum_by, if◌then◌else◌, OnOk, OnErr, vec_capacity};
ghost use Rattle.std.specs.Io.KnownBytes.{Appends};
ghost use Rattle.ssd_formats.specs.EntryText.{histories_text};
ghost use Rattle.ssd_formats.specs.ReplyText.{actors_text};
ghost use Rattle.ssd_formats.specs.RunText.{answers_count, is_hinted, run_text, summary_of, summary_text, taken_by};
ghost use Rattle.ssd_io.specs.FaultCounts.{MatchesCount};
ghost use Rattle.ssd_io.specs.Pieces.{AppendsFront};
ghost use Rattle.history_text.specs.Places.{AsLong};
ghost use Rattle.history_text.specs.Printing.{Prints};

use crate::call_counts::{count_calls, count_hinted, count_rungs, count_taken};
use crate::counts::count_histories;
use crate::entries::put_history;
use crate::put::flush;
use crate::replies::put_actor;
use crate::summary::{Hints, put_summary};
use ssd_geo::{CallKind, Entry, ImageHead, Items, Reply};
use ssd_io::{Failed, Sink};

fn put_histories<O: Sink>(
    output: &mut O,
    line: &mut Vec<u8>,
    histories: &[Items<Entry>],
) -> Result<(), Failed>
    ensures { Prints O.written O.faults output.old output.new line.old line.new result
        (histories_text histories.now) }
{
    for (channel, entries) in histories.iter().enumerate() {
        put_history(output, line, channel as u64, entries.as_slice())?;
    }
    Ok(())
}

fn put_actors<O: Sink>(
    output: &mut O,
    line: &mut Vec<u8>,
    replies: &[Items<Reply>],
) -> Result<(), Failed>
    ensures { Prints O.written O.faults output.old output.new line.old line.new result
        (actors_text replies.now) }
{
    for (actor, given) in replies.iter().enumerate() {
        put_actor(output, line, actor as u64, given.as_slice())?;
    }
    Ok(())
}

fn put_lists<O: Sink>(
    output: &mut O,
    line: &mut Vec<u8>,
    histories: &[Items<Entry>],
    replies: &[Items<Reply>],
) -> Result<(), Failed>
    ensures { Prints O.written O.faults output.old output.new line.old line.new result
        (histories_text histories.now ++ actors_text replies.now) }
{
    put_histories(output, line, histories)?;
    put_actors(output, line, replies)
}

fn put_counted<O: Sink>(
    output: &mut O,
    line: &mut Vec<u8>,
    head: &ImageHead,
    histories: &[Items<Entry>],
    kinds: &[Items<CallKind>],
    replies: &[Items<Reply>],
    dropped: u64,
) -> Result<(), Failed>
    requires levels { length head.now.read_levels ≤ 16 }
    requires lists { length kinds.now ≡ length replies.now }
    requires long { AsLong kinds.now replies.now }
    requires dropped { dropped ≤ answers_count is_hinted replies.now }
    requires taken { sum_by (sum_by taken_by) replies.now
        ≤ answers_count is_hinted replies.now - dropped }
    ensures { let levels = length head.now.read_levels in
        let text = summary_text (summary_of levels histories.now kinds.now replies.now dropped) in
        Prints O.written O.faults output.old output.new line.old line.new result text }
{
    let levels = head.read_levels.len();
    let calls = count_calls(kinds, replies);
    let entries = count_histories(histories);
    let rungs = count_rungs(replies);
    let hinted = count_hinted(replies);
    let hints = Hints {
        pushed: hinted - dropped as u128,
        dropped,
        taken: count_taken(replies),
    };
    put_summary(output, line, &calls, &entries, &rungs[..levels + 2], &hints)
}

fn put_whole<O: Sink>(
    output: &mut O,
    line: &mut Vec<u8>,
    histories: &[Items<Entry>],
    replies: &[Items<Reply>],
    whole: bool,
) -> Result<(), Failed>
    ensures { Prints O.written O.faults output.old output.new line.old line.new result
        (if whole then histories_text histories.now ++ actors_text replies.now else []) }
{
    if whole {
        return put_lists(output, line, histories, replies);
    }
    Ok(())
}

/// Writes what a run prints, whole or from the summary on. It takes no memory: the line is the room through which
/// all goes, and what it held before is dropped. What it holds after a failure is left open.
pub fn print_run<O: Sink>(
    output: &mut O,
    head: &ImageHead,
    histories: &[Items<Entry>],
    kinds: &[Items<CallKind>],
    replies: &[Items<Reply>],
    dropped: u64,
    whole: bool,
    line: &mut Vec<u8>,
) -> Result<(), Failed>
    requires levels { length head.now.read_levels ≤ 16 }
    requires lists { length kinds.now ≡ length replies.now }
    requires long { AsLong kinds.now replies.now }
    requires dropped { dropped ≤ answers_count is_hinted replies.now }
    requires taken { sum_by (sum_by taken_by) replies.now
        ≤ answers_count is_hinted replies.now - dropped }
    ensures all { let levels = length head.now.read_levels in
        let text = run_text whole levels histories.now kinds.now replies.now dropped in
        OnOk result (Appends (O.written output.old) (O.written output.new) text) }
    ensures front { let levels = length head.now.read_levels in
        let text = run_text whole levels histories.now kinds.now replies.now dropped in
        OnErr result (AppendsFront (O.written output.old) (O.written output.new) text) }
    ensures cause { MatchesCount (O.faults output.old) (O.faults output.new) result }
    ensures empty { OnOk result (line.new.items ≡ []) }
    ensures room { vec_capacity line.old ≤ vec_capacity line.new }
{
    line.clear();
    put_whole(output, line, histories, replies, whole)?;
    put_counted(output, line, head, histories, kinds, replies, dropped)?;
    flush(output, line)
}

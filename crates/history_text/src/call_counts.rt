// The counts of replies in the summary.
ghost use Rattle.std.specs.Prelude.{◌≡◌, ℕ, ◌+◌, ◌-◌, ◌^◌, ◌<◌, ◌≤◌, length, zip, count_by, sum_by, slice_index, cond};
ghost use Rattle.ssd_formats.specs.RunText.{answered_calls, answers_count, is_hinted, taken_by};
ghost use Rattle.history_text.specs.Places.{write_place, read_place, call_place, placed_calls, rung_place, placed_rungs, AsLong};

use ssd_geo::{CallKind, Items, Reply};

/// The numbers of replies at each rung's place.
pub fn count_rungs(replies: &[Items<Reply>]) -> [u128; 257]
    ensures counted { (k : ℕ) → k < 257 →
        slice_index result k ≡ sum_by (placed_rungs k) replies.now }
    ensures len { length result ≡ 257 }
{
    let mut counts = [0; 257];
    for given in replies {
        count_data(&mut counts, given.as_slice());
    }
    counts
}

fn count_data(counts: &mut [u128; 257], replies: &[Reply])
    requires { (k : ℕ) → k < 257 → slice_index counts.old k ≤ 2 ^ 128 - 2 ^ 64 }
    ensures counted { (k : ℕ) → k < 257 →
        slice_index counts.new k ≡ slice_index counts.old k + placed_rungs k replies.now }
    ensures bound { (k : ℕ) → k < 257 →
        slice_index counts.new k ≤ slice_index counts.old k + 2 ^ 64 }
    ensures len { length counts.new ≡ 257 }
{
    for reply in replies {
        let place = place_of_rung(reply);
        counts[place] += 1;
    }
}

fn place_of_rung(reply: &Reply) -> usize
    ensures place { result ≡ rung_place reply.now }
    ensures bound { result < 257 }
{
    match reply {
        Reply::Data { rung, .. } => *rung as usize,
        Reply::Ok => 256,
        Reply::Full => 256,
        Reply::ReadOnly => 256,
        Reply::DieFault { .. } => 256,
        Reply::Empty => 256,
        Reply::Uncorrectable => 256,
        Reply::Moved => 256,
        Reply::Changed => 256,
        Reply::NoRoom => 256,
        Reply::Failed => 256,
        Reply::Collected { .. } => 256,
        Reply::Retired { .. } => 256,
        Reply::Idle => 256,
        Reply::Drained { .. } => 256,
    }
}

/// The number of replies that have a hint.
pub fn count_hinted(replies: &[Items<Reply>]) -> u128
    ensures { result ≡ answers_count is_hinted replies.now }
{
    let mut count = 0;
    for given in replies {
        count += hinted_of(given.as_slice()) as u128;
    }
    count
}

fn hinted_of(replies: &[Reply]) -> u64
    ensures { result ≡ count_by is_hinted replies.now }
{
    let mut count = 0;
    for reply in replies {
        count += hints_of(reply) as u64;
    }
    count
}

fn hints_of(reply: &Reply) -> u8
    ensures hints { result ≡ cond (is_hinted reply.now) 1 0 }
    ensures bound { result ≤ 1 }
{
    match reply {
        Reply::Data { rung: 0, .. } => 0,
        Reply::Data { .. } => 1,
        Reply::Ok => 0,
        Reply::Full => 0,
        Reply::ReadOnly => 0,
        Reply::DieFault { .. } => 0,
        Reply::Empty => 0,
        Reply::Uncorrectable => 0,
        Reply::Moved => 0,
        Reply::Changed => 0,
        Reply::NoRoom => 0,
        Reply::Failed => 0,
        Reply::Collected { .. } => 0,
        Reply::Retired { .. } => 0,
        Reply::Idle => 0,
        Reply::Drained { .. } => 0,
    }
}

/// The number of hints that were taken.
pub fn count_taken(replies: &[Items<Reply>]) -> u128
    requires { sum_by (sum_by taken_by) replies.now < 2 ^ 128 }
    ensures { result ≡ sum_by (sum_by taken_by) replies.now }
{
    let mut count = 0;
    for given in replies {
        count += taken_of(given.as_slice());
    }
    count
}

fn taken_of(replies: &[Reply]) -> u128
    requires { sum_by taken_by replies.now < 2 ^ 128 }
    ensures { result ≡ sum_by taken_by replies.now }
{
    let mut count = 0;
    for reply in replies {
        count += taken_pages(reply) as u128;
    }
    count
}

fn taken_pages(reply: &Reply) -> u64
    ensures { result ≡ taken_by reply.now }
{
    match reply {
        Reply::Drained { pages } => pages.len() as u64,
        Reply::Data { .. } => 0,
        Reply::Ok => 0,
        Reply::Full => 0,
        Reply::ReadOnly => 0,
        Reply::DieFault { .. } => 0,
        Reply::Empty => 0,
        Reply::Uncorrectable => 0,
        Reply::Moved => 0,
        Reply::Changed => 0,
        Reply::NoRoom => 0,
        Reply::Failed => 0,
        Reply::Collected { .. } => 0,
        Reply::Retired { .. } => 0,
        Reply::Idle => 0,
    }
}

/// The numbers of answered calls at each place.
pub fn count_calls(kinds: &[Items<CallKind>], replies: &[Items<Reply>]) -> [u128; 10]
    requires lists { length kinds.now ≡ length replies.now }
    requires long { AsLong kinds.now replies.now }
    ensures { (k : ℕ) → k < 10 →
        slice_index result k ≡ placed_calls k (answered_calls kinds.now replies.now) }
{
    let mut counts = [0; 10];
    for actor in 0..replies.len() {
        count_actor(
            &mut counts,
            kinds[actor].as_slice(),
            replies[actor].as_slice(),
        );
    }
    counts
}

fn count_actor(counts: &mut [u128; 10], kinds: &[CallKind], replies: &[Reply])
    requires room { (k : ℕ) → k < 10 → slice_index counts.old k ≤ 2 ^ 128 - 2 ^ 64 }
    requires long { length replies.now ≤ length kinds.now }
    ensures counted { (k : ℕ) → k < 10 →
        slice_index counts.new k
        ≡ slice_index counts.old k + placed_calls k (zip kinds.now replies.now) }
    ensures bound { (k : ℕ) → k < 10 →
        slice_index counts.new k ≤ slice_index counts.old k + 2 ^ 64 }
{
    for call in 0..replies.len() {
        let place = place_of_call(kinds[call], &replies[call]);
        counts[place] += 1;
    }
}

fn place_of_call(kind: CallKind, reply: &Reply) -> usize
    ensures place { result ≡ call_place kind reply.now }
    ensures bound { result < 10 }
{
    match kind {
        CallKind::Write => place_of_write(reply),
        CallKind::Read => place_of_read(reply),
        CallKind::Trim => 8,
        CallKind::Refresh => 9,
        CallKind::Collect => 9,
        CallKind::Drain => 9,
        CallKind::Age => 9,
    }
}

fn place_of_write(reply: &Reply) -> usize
    ensures place { result ≡ write_place reply.now }
    ensures bound { result < 10 }
{
    match reply {
        Reply::Ok => 0,
        Reply::Full => 1,
        Reply::ReadOnly => 2,
        Reply::DieFault { .. } => 3,
        Reply::Data { .. } => 9,
        Reply::Empty => 9,
        Reply::Uncorrectable => 9,
        Reply::Moved => 9,
        Reply::Changed => 9,
        Reply::NoRoom => 9,
        Reply::Failed => 9,
        Reply::Collected { .. } => 9,
        Reply::Retired { .. } => 9,
        Reply::Idle => 9,
        Reply::Drained { .. } => 9,
    }
}

fn place_of_read(reply: &Reply) -> usize
    ensures place { result ≡ read_place reply.now }
    ensures bound { result < 10 }
{
    match reply {
        Reply::Data { .. } => 4,
        Reply::Empty => 5,
        Reply::Uncorrectable => 6,
        Reply::DieFault { .. } => 7,
        Reply::Ok => 9,
        Reply::Full => 9,
        Reply::ReadOnly => 9,
        Reply::Moved => 9,
        Reply::Changed => 9,
        Reply::NoRoom => 9,
        Reply::Failed => 9,
        Reply::Collected { .. } => 9,
        Reply::Retired { .. } => 9,
        Reply::Idle => 9,
        Reply::Drained { .. } => 9,
    }
}

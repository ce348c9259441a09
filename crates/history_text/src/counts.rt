// The counts of the summary.
ghost use Rattle.std.specs.Prelude.{◌≡◌, ℕ, ◌+◌, ◌-◌, ◌^◌, ◌<◌, ◌≤◌, sum_by, slice_index};
ghost use Rattle.history_text.specs.Places.{kind_place, placed_entries};

use ssd_geo::{Entry, Items, Kind};

/// The numbers of entries at each place.
pub fn count_histories(histories: &[Items<Entry>]) -> [u128; 10]
    ensures { (k : ℕ) → k < 10 → slice_index result k ≡ sum_by (placed_entries k) histories.now }
{
    let mut counts = [0; 10];
    for entries in histories {
        count_entries(&mut counts, entries.as_slice());
    }
    counts
}

fn count_entries(counts: &mut [u128; 10], entries: &[Entry])
    requires { (k : ℕ) → k < 10 → slice_index counts.old k ≤ 2 ^ 128 - 2 ^ 64 }
    ensures counted { (k : ℕ) → k < 10 →
        slice_index counts.new k ≡ slice_index counts.old k + placed_entries k entries.now }
    ensures bound { (k : ℕ) → k < 10 →
        slice_index counts.new k ≤ slice_index counts.old k + 2 ^ 64 }
{
    for entry in entries {
        let place = place_of(&entry.kind);
        counts[place] += 1;
    }
}

fn place_of(kind: &Kind) -> usize
    ensures place { result ≡ kind_place kind.now }
    ensures bound { result < 10 }
{
    match kind {
        Kind::Move { .. } => 0,
        Kind::Condemn { .. } => 1,
        Kind::Changed { .. } => 2,
        Kind::Stay { .. } => 3,
        Kind::Pick { .. } => 4,
        Kind::Erase { .. } => 5,
        Kind::BadWrite { .. } => 6,
        Kind::BadCopy { .. } => 6,
        Kind::BadErase { .. } => 6,
        Kind::FaultSense { .. } => 7,
        Kind::FaultAge { .. } => 7,
        Kind::Sense { .. } => 8,
        Kind::Look { .. } => 9,
        Kind::Leave { .. } => 9,
        Kind::Write { .. } => 9,
        Kind::Trim { .. } => 9,
        Kind::Age { .. } => 9,
        Kind::Refused { .. } => 9,
        Kind::Note { .. } => 9,
    }
}

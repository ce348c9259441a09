ghost use Rattle.std.specs.Prelude.{◌≡◌, ◌<◌, ◌≤◌, nat_le, ◌&&◌, ◌↔◌, not, IfSome, IsNone, IsTrue, find, length, option_to_list, slice_index_or, false};
ghost use Rattle.ssd_histories.specs.Policies as Policies;
ghost use Rattle.ssd_histories.specs.Policies.{candidates, count_of_candidates, default_victim_of, garbage_in, is_after_last};
ghost use Rattle.victim.specs.First.{IsFirst, beats, best_with, start_after};

use ssd_geo::{SbInfo, SbState};

/// The candidate with the most garbage, the least number among equals. A candidate is sealed and has garbage.
pub fn default_victim(table: &[SbInfo]) -> Option<u16>
    requires { length table.now ≤ 256 }
    ensures value { result ≡ default_victim_of table.now }
    ensures candidate { IfSome result (λ sb. (sb < length table.now) × IsTrue (Policies.is_candidate_at table.now sb)) }
    ensures none { IsNone result ↔ count_of_candidates table.now ≡ 0 }
{
    let mut best = None;
    for sb in 0..table.len() {
        best = better(table, sb, best);
    }
    narrowed(best)
}

// The best superblock so far, or this one, where it is a candidate with more garbage.
fn better(table: &[SbInfo], sb: usize, best: Option<usize>) -> Option<usize>
    requires in_range { sb < length table.now }
    requires best_in_range { IfSome best (λ b. b < length table.now) }
    ensures { result ≡ best_with table.now sb best }
{
    if is_candidate(&table[sb]) && has_more(table, sb, best) {
        Some(sb)
    } else {
        best
    }
}

// Whether a superblock has more garbage than the best one so far.
fn has_more(table: &[SbInfo], sb: usize, best: Option<usize>) -> bool
    requires in_range { sb < length table.now }
    requires best_in_range { IfSome best (λ b. b < length table.now) }
    ensures { result ≡ beats table.now sb best }
{
    match best {
        Some(b) => garbage(&table[b]) < garbage(&table[sb]),
        None => true,
    }
}

// The slots of the superblock that no row names.
fn garbage(info: &SbInfo) -> u32
    ensures { result ≡ garbage_in info.now }
{
    info.slots.saturating_sub(info.live)
}

// Whether the superblock may be picked.
fn is_candidate(info: &SbInfo) -> bool
    ensures { result ≡ Policies.is_candidate info.now }
{
    matches!(info.state, SbState::Sealed) && info.live < info.slots
}

// Whether the superblock with this number is in the table and may be picked.
pub(crate) fn is_candidate_at(table: &[SbInfo], sb: u16) -> bool
    ensures { result ≡ Policies.is_candidate_at table.now sb }
{
    match table.get(sb as usize) {
        Some(info) => is_candidate(info),
        None => false,
    }
}

// The first candidate after the last answer, or the first of all where there was none.
pub(crate) fn first_after(table: &[SbInfo], last: Option<u16>) -> Option<u16>
    requires { length table.now ≤ 256 }
    ensures { result ≡ find (is_after_last (option_to_list last)) (candidates table.now) }
{
    narrowed(first_from(table, from_after(last)))
}

// The first number after the last answer, or 0 where there was none.
fn from_after(last: Option<u16>) -> usize
    ensures { result ≡ start_after last }
{
    match last {
        Some(sb) => sb as usize + 1,
        None => 0,
    }
}

// The first candidate with at least this number.
fn first_from(table: &[SbInfo], from: usize) -> Option<usize>
    ensures { IsFirst (λ sb. Policies.is_candidate_at table.now sb && nat_le from sb) (length table.now) result }
{
    for sb in from..table.len() {
        if is_candidate(&table[sb]) {
            return Some(sb);
        }
    }
    None
}

// The first candidate that isn't marked as listed.
pub(crate) fn first_unlisted(table: &[SbInfo], listed: &[bool]) -> Option<u16>
    requires table { length table.now ≤ 256 }
    requires listed { length listed.now ≡ 256 }
    ensures { IsFirst (λ sb. Policies.is_candidate_at table.now sb && not (slice_index_or listed.now sb false))
        (length table.now) result }
{
    for (sb, info) in table.iter().enumerate() {
        if is_candidate(info) && !listed[sb] {
            return Some(sb as u16);
        }
    }
    None
}

// A place in a table of at most 256 superblocks as the number of its superblock.
fn narrowed(place: Option<usize>) -> Option<u16>
    requires { IfSome place (λ sb. sb < 256) }
    ensures { result ≡ place }
{
    match place {
        Some(sb) => Some(sb as u16),
        None => None,
    }
}

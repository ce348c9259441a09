// The settings that options name, each with its default.
ghost use Rattle.std.specs.Prelude.{◌≡◌, true, codes, IfSome, option_map};
ghost use Rattle.ssd_formats.specs.Words.{greatest_history, history_of_text, lanes_of_text, policy_of_text, read_or, settings_from as settings_in, whole_of_text};
ghost use Rattle.ssd_geo.specs.declared.policy_view.PolicyKind.TheVariants.{Greedy};
ghost use Rattle.command_words.specs.Commands.{AreWithin, told_settings};
ghost use Rattle.command_words.specs.Options.{options_in};

use crate::command::Settings;
use crate::numbers::number;
use crate::options::value_named;
use ssd_geo::{PolicyKind, Word};

fn policy_of_text(text: &[u8]) -> Option<PolicyKind>
    ensures { result ≡ policy_of_text text.now }
{
    if text == b"greedy".as_slice() {
        return Some(PolicyKind::Greedy);
    }
    if text == b"oldest".as_slice() {
        return Some(PolicyKind::Oldest);
    }
    if text == b"roundrobin".as_slice() {
        return Some(PolicyKind::RoundRobin);
    }
    None
}

fn lanes_of_text(text: &[u8]) -> Option<u8>
    ensures { result ≡ lanes_of_text text.now }
{
    match number(text)? {
        lanes @ (1 | 4 | 8 | 16 | 32) => Some(lanes as u8),
        _ => None,
    }
}

// The greatest limit of a channel's history.
const GREATEST_HISTORY: u32 = 1 << 22;

fn history_of_text(text: &[u8]) -> Option<u32>
    ensures { result ≡ history_of_text text.now }
{
    number(text).filter(|history| 256 <= *history && *history <= GREATEST_HISTORY)
}

fn whole_of_text(text: &[u8]) -> Option<bool>
    ensures { result ≡ whole_of_text text.now }
{
    if text == b"all".as_slice() {
        return Some(true);
    }
    if text == b"summary".as_slice() {
        return Some(false);
    }
    None
}

fn policy(options: &[Word]) -> Option<PolicyKind>
    ensures { result ≡ read_or Greedy policy_of_text (codes "policy") (options_in options.now) }
{
    match value_named(options, b"policy") {
        Some(text) => policy_of_text(text),
        None => Some(PolicyKind::Greedy),
    }
}

fn lanes(options: &[Word]) -> Option<u8>
    ensures { result ≡ read_or 16 lanes_of_text (codes "lanes") (options_in options.now) }
{
    match value_named(options, b"lanes") {
        Some(text) => lanes_of_text(text),
        None => Some(16),
    }
}

fn history(options: &[Word]) -> Option<u32>
    ensures { result ≡ read_or greatest_history history_of_text (codes "history") (options_in options.now) }
{
    match value_named(options, b"history") {
        Some(text) => history_of_text(text),
        None => Some(GREATEST_HISTORY),
    }
}

fn whole(options: &[Word]) -> Option<bool>
    ensures { result ≡ read_or true whole_of_text (codes "show") (options_in options.now) }
{
    match value_named(options, b"show") {
        Some(text) => whole_of_text(text),
        None => Some(true),
    }
}

/// The settings that the options name.
pub fn settings_from(options: &[Word]) -> Option<Settings>
    ensures told { option_map told_settings result ≡ settings_in (options_in options.now) }
    ensures within { IfSome result AreWithin }
{
    Some(Settings {
        policy: policy(options)?,
        lanes: lanes(options)?,
        history: history(options)?,
        whole: whole(options)?,
    })
}

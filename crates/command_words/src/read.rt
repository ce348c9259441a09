// The command that the words are.
ghost use Rattle.std.specs.Prelude.{◌≡◌, true, IfSome, option_map};
ghost use Rattle.ssd_formats.specs.Words.{are_race, command_of, command_with as command_with_options, formatting, policy_named};
ghost use Rattle.command_words.specs.Commands.{AreWithin, IsWithin, told_command, told_settings};
ghost use Rattle.command_words.specs.Options.{are_options as are_options_in, names_of, number_named, options_in, settings_named};

use crate::command::{Command, Settings};
use crate::numbers::number;
use crate::options::{Names, are_named_once, are_options, value_named};
use crate::settings::settings_from;
use ssd_geo::{PolicyKind, Word};

// The settings of a command whose options have these names.
fn settings_of(options: &[Word], names: Names) -> Option<Settings>
    ensures told { option_map told_settings result ≡ settings_named (names_of names) (options_in options.now) }
    ensures within { IfSome result AreWithin }
{
    if are_named_once(options, names) {
        settings_from(options)
    } else {
        None
    }
}

// The number of a `gen` with these options.
fn number_of(options: &[Word]) -> Option<u32>
    ensures { result ≡ number_named (options_in options.now) }
{
    if are_named_once(options, Names::Gen) {
        number(value_named(options, b"number")?)
    } else {
        None
    }
}

// A `format` with these options.
fn format_with(options: &[Word]) -> Option<Command>
    requires { are_options_in options.now ≡ true }
    ensures told { option_map told_command result ≡ formatting (options_in options.now) }
    ensures within { IfSome result IsWithin }
{
    if options.is_empty() {
        Some(Command::Format)
    } else {
        None
    }
}

// The command of a first word with these options.
fn command_with(word: &[u8], options: &[Word]) -> Option<Command>
    requires { are_options_in options.now ≡ true }
    ensures told { option_map told_command result ≡ command_with_options word.now (options_in options.now) }
    ensures within { IfSome result IsWithin }
{
    if word == b"run".as_slice() {
        let settings = settings_of(options, Names::Run)?;
        return Some(Command::Run { settings });
    }
    if word == b"race".as_slice() {
        let settings = settings_of(options, Names::Serving)?;
        return Some(Command::Race { settings });
    }
    if word == b"save".as_slice() {
        let settings = settings_of(options, Names::Serving)?;
        return Some(Command::Save { settings });
    }
    if word == b"format".as_slice() {
        return format_with(options);
    }
    if word == b"gen".as_slice() {
        let number = number_of(options)?;
        return Some(Command::Gen { number });
    }
    None
}

/// The command that the words are, if they are one.
pub fn read_command(words: &[Word]) -> Option<Command>
    ensures told { option_map told_command result ≡ command_of words.now }
    ensures within { IfSome result IsWithin }
{
    let (first, options) = words.split_first()?;
    if are_options(options) {
        command_with(first.bytes(), options)
    } else {
        None
    }
}

/// How the words say that victims are picked; where they are refused, as they do by default.
pub fn policy_of(words: &[Word]) -> PolicyKind
    ensures { result ≡ policy_named words.now }
{
    match read_command(words) {
        Some(Command::Run { settings }) => settings.policy,
        Some(Command::Race { settings }) => settings.policy,
        Some(Command::Save { settings }) => settings.policy,
        _ => PolicyKind::Greedy,
    }
}

/// Whether the words are a `race`, which threads serve.
pub fn is_race(words: &[Word]) -> bool
    ensures { result ≡ are_race words.now }
{
    matches!(read_command(words), Some(Command::Race { .. }))
}

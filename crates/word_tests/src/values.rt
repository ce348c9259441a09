// The values of accepted words, read by `clap` from the table of the options.
use clap::{Arg, ArgAction, ArgMatches, Command as Parser};
use command_words::{Command, Settings, read_command};
use ssd_geo::{PolicyKind, Word};
use std::alloc::{AllocError, Global};
use std::test::Fail;

// Accepted lists of words, each behind the program's own name: each option once, each default, and two orders of options.
const ACCEPTED: [&str; 21] = [
    "ssd run",
    "ssd run --policy=greedy",
    "ssd run --policy=oldest",
    "ssd run --policy=roundrobin",
    "ssd run --lanes=1",
    "ssd run --lanes=4",
    "ssd run --lanes=8",
    "ssd run --lanes=32",
    "ssd run --history=256",
    "ssd run --history=4194304",
    "ssd run --show=all",
    "ssd run --show=summary",
    "ssd run --show=summary --lanes=8 --policy=oldest --history=1000",
    "ssd run --history=1000 --policy=oldest --lanes=8 --show=summary",
    "ssd save",
    "ssd save --policy=oldest --lanes=4 --history=65536",
    "ssd save --lanes=4 --history=65536 --policy=oldest",
    "ssd format",
    "ssd gen --number=0",
    "ssd gen --number=1",
    "ssd gen --number=4294967295",
];

// An option with a default.
fn option<'a>(alloc: Global, name: &'a str, default: &'a str) -> Arg<'a> {
    Arg::new(alloc, name)
        .long(name)
        .action(ArgAction::Set)
        .default_value(default)
}

// A command that serves a trace.
fn serving<'a>(alloc: Global, name: &'a str) -> Result<Parser<'a>, AllocError> {
    Parser::new(alloc, name)
        .arg(option(alloc, "policy", "greedy"))?
        .arg(option(alloc, "lanes", "16"))?
        .arg(option(alloc, "history", "4194304"))
}

fn parser<'a>(alloc: Global) -> Result<Parser<'a>, AllocError> {
    let number = Arg::new(alloc, "number")
        .long("number")
        .action(ArgAction::Set)
        .required(true);
    Parser::new(alloc, "ssd")
        .subcommand(serving(alloc, "run")?.arg(option(alloc, "show", "all"))?)?
        .subcommand(serving(alloc, "save")?)?
        .subcommand(Parser::new(alloc, "format"))?
        .subcommand(Parser::new(alloc, "gen").arg(number)?)
}

fn policy_named(name: &str) -> Option<PolicyKind> {
    match name {
        "greedy" => Some(PolicyKind::Greedy),
        "oldest" => Some(PolicyKind::Oldest),
        "roundrobin" => Some(PolicyKind::RoundRobin),
        _ => None,
    }
}

fn settings_in(matches: &ArgMatches<'_>, whole: bool) -> Option<Settings> {
    Some(Settings {
        policy: policy_named(matches.get_str("policy")?)?,
        lanes: matches.get_one::<u8>("lanes")?,
        history: matches.get_one::<u32>("history")?,
        whole,
    })
}

// The command that `clap` found.
fn command_in(matches: &ArgMatches<'_>) -> Option<Command> {
    let (name, matches) = matches.subcommand()?;
    match name {
        "run" => {
            let whole = matches.get_str("show")? == "all";
            let settings = settings_in(matches, whole)?;
            Some(Command::Run { settings })
        }
        "save" => {
            let settings = settings_in(matches, true)?;
            Some(Command::Save { settings })
        }
        "format" => Some(Command::Format),
        "gen" => {
            let number = matches.get_one::<u32>("number")?;
            Some(Command::Gen { number })
        }
        _ => None,
    }
}

#[test]
fn words_have_the_values_that_clap_reads(rt: HostRuntime) -> Result<(), Fail> {
    for line in ACCEPTED {
        let texts: Vec<&str> = line.split(' ').collect(rt.alloc())?;
        let mut words = Vec::new(rt.alloc());
        for text in line.split(' ').skip(1) {
            words.push(Word::new(String::from_str(rt.alloc(), text)?))?;
        }
        let matches = parser(rt.alloc())?.try_get_matches_from(&texts)?;
        let command = command_in(&matches);
        assert!(rt; command.is_some(), "{line}");
        assert_eq!(rt; read_command(&words), command, "{line}");
    }
    Ok(())
}

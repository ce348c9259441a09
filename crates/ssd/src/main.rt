//! The program: it hands the words of the command line, standard input and output, simulated dies and the policies that the
//! words name to the top call, and tells its caller how that ended.
#![tactic(auto)]

ghost use Rattle.std.specs.Prelude.{IfOk, map};
ghost use Rattle.ssd_top.specs.HandedBack.{AreHandedIn};

use die_model::SimDie;
use onfi_cmd::Die;
use ssd_geo::{PolicyKind, Word};
use ssd_io::{ReadSource, WriteSink};
use ssd_top::{Status, policy_of, run, status_text};
use std::alloc::{AllocError, Global};
use std::io::{self, BufWriter, ErrorKind, Write};
use std::process::ExitCode;
use std::rt::Env;
use victim::{Greedy, Oldest, Policy, RoundRobin};

// The words of the command line behind the program's own. A list that can't be had has no word, and so is refused,
// but for one that wants for memory.
fn words_of<R: Env + AllocGlobal>(rt: &R) -> Result<Vec<Word>, AllocError> {
    let mut words = Vec::new(rt.alloc());
    match std::env::args(rt) {
        Ok(args) => {
            for text in args.skip(1) {
                words.push(Word::new(text))?;
            }
            Ok(words)
        }
        Err(error) if error.kind() == ErrorKind::OutOfMemory => Err(AllocError),
        Err(_) => Ok(words),
    }
}

// The most channels of a drive, and the most dies on all of them.
const CHANNELS: u8 = 8;

const DIES: u8 = 64;

// Simulated dies that aren't mounted yet.
fn dies_of(alloc: Global) -> Result<Vec<SimDie>, AllocError>
    ensures { IfOk result (λ dies. AreHandedIn (map ⟦<SimDie as Die>⟧.state dies.items)) }
{
    let mut dies = Vec::with_capacity(alloc, DIES as usize)?;
    for _ in 0..DIES {
        dies.push(SimDie::new())?;
    }
    Ok(dies)
}

// Serves the words over the standard streams. What was written is flushed before the status is told.
fn serve<R: Env + AllocGlobal + Input + Print>(rt: &R) -> Result<Status, AllocError> {
    let words = words_of(rt)?;
    let mut input = ReadSource::new(rt.reader());
    let Ok(mut writer) = BufWriter::new(rt.alloc(), io::writer(rt)) else {
        return Ok(Status::OutOfMemory);
    };
    let mut output = WriteSink::new(&mut writer);
    let dies = dies_of(rt.alloc())?;
    let kind = policy_of(&words);
    let mut policies: Vec<Box<dyn Policy + Send>> = Vec::with_capacity(
        rt.alloc(),
        CHANNELS as usize,
    )?;
    for _ in 0..CHANNELS {
        match kind {
            PolicyKind::Greedy => {
                policies.push_reserved(Box::new(rt.alloc(), Greedy::new())?);
            }
            PolicyKind::Oldest => {
                policies.push_reserved(Box::new(rt.alloc(), Oldest::new())?);
            }
            PolicyKind::RoundRobin => {
                policies.push_reserved(Box::new(rt.alloc(), RoundRobin::new())?);
            }
        }
    }
    let ended = run(rt.alloc(), &words, &mut input, &mut output, dies, policies);
    let status = ended.status;
    match writer.flush() {
        Ok(()) => Ok(status),
        Err(_) => Ok(Status::WriteFault),
    }
}

// What is told where memory for a line is refused.
const NO_MEMORY: &[u8] = b"out of memory\n";

fn main(rt: HostRuntime) -> ExitCode {
    let status = serve(&rt).unwrap_or(Status::OutOfMemory);
    let mut text = Vec::new(rt.alloc());
    let line = match status_text(&status, &mut text) {
        Ok(()) => text.as_slice(),
        Err(_) => NO_MEMORY,
    };
    let _ = rt.stderr().write_all(line);
    ExitCode::from(status.number())
}

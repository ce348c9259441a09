// What a run prints.
ghost use Rattle.std.specs.Prelude.{◌≡◌, OnErr, OnOk};
ghost use Rattle.std.specs.Io.KnownBytes.{Appends};
ghost use Rattle.ssd_io.specs.FaultCounts.{MatchesCount};
ghost use Rattle.ssd_io.specs.Pieces.{AppendsFront};

use crate::Status;
use history_text::print_run;
use ssd_geo::{CallKind, Entry, ImageHead, Items, Reply};
use ssd_io::{Failed, Sink};

// What a run prints, all or the summary alone, made before anything is written, and the line through which it goes. A run
// that stopped at the limit of a channel's history names the channel and the history's length.
#[derive(Drop)]
pub struct Printed {
    pub head: ImageHead,
    pub histories: Vec<Items<Entry>>,
    pub kinds: Vec<Items<CallKind>>,
    pub replies: Vec<Items<Reply>>,
    pub dropped: u32,
    pub full: Option<(u8, u32)>,
    pub whole: bool,
    pub line: Vec<u8>,
}

impl Printed {
    ghost use Rattle.ssd_top.specs.Printed.{IsPrintable, status_after, text_of};

    // Writes it. It takes no memory.
    pub fn print<O: Sink>(&mut self, output: &mut O) -> Result<(), Failed>
        requires { IsPrintable self.old }
        ensures all { OnOk result
            (Appends (O.written output.old) (O.written output.new) (text_of self.old)) }
        ensures front { OnErr result
            (AppendsFront (O.written output.old) (O.written output.new) (text_of self.old)) }
        ensures cause { MatchesCount (O.faults output.old) (O.faults output.new) result }
    {
        print_run(
            output,
            &self.head,
            &self.histories,
            &self.kinds,
            &self.replies,
            u64::from(self.dropped),
            self.whole,
            &mut self.line,
        )
    }

    // The status of the run, where all was written.
    pub fn status(&self) -> Status
        ensures { result ≡ status_after self.now.full }
    {
        match self.full {
            None => Status::Done,
            Some((channel, length)) => Status::HistoryLimit { channel, length },
        }
    }
}

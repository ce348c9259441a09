// The lines of a text, each of which ends with LF.
ghost use Rattle.std.specs.Prelude.{◌≡◌, ◌==◌, ◌<◌, ◌+◌, ◌^◌, length};
ghost use Rattle.ssd_formats.specs.HistoryText.{printed};
ghost use Rattle.history_text.specs.LinesLeft.{TakesLine};

use crate::fault::HistoryFault;
use crate::read::pieces::cut;
use std::marker::Model;

const LINE_FEED: u8 = b'\n';

/// What is left of a text, and how many lines were taken before it. Contracts see the lines.
#[derive(Drop)]
pub struct Lines<'a> {
    taken: u64,
    left: &'a [u8],
}

impl<'a> Model for Lines<'a> {
    ghost use Rattle.std.specs.Prelude.{◌<◌, ◌+◌, ◌^◌, length};
    ghost use Rattle.ssd_formats.specs.HistoryText.{Printed};
    ghost use Rattle.history_text.specs.LinesLeft.{lines_left};

    ghost Value = { Printed };

    ghost view = { λ l. lines_left l.taken l.left.now };

    ghost invariant = { λ l. l.taken + length l.left.now < 2 ^ 63 };
}

impl<'a> Lines<'a> {
    pub fn new(text: &'a [u8]) -> Lines<'a>
        ensures { result ≡ printed text.now }
    {
        Lines {
            taken: 0,
            left: text,
        }
    }

    /// The number of lines that were taken.
    pub fn taken(&self) -> u64
        ensures number { result + 1 ≡ self.now.number }
        ensures few { result < 2 ^ 63 }
    {
        self.taken
    }

    /// Whether no line is left.
    #[tactic(auto, using(crate::proofs::LineCuts::nothing_left))]
    pub fn is_done(&self) -> bool
        ensures { result ≡ (length self.now.lines == 0) }
    {
        self.left.is_empty()
    }

    /// Takes the next line, without its LF.
    #[tactic(auto, using(crate::proofs::LineCuts::no_line_before))]
    pub fn take(&mut self) -> Result<&'a [u8], HistoryFault>
        ensures { TakesLine result self.old self.new }
    {
        let (line, behind) = cut(LINE_FEED, self.left);
        match behind {
            Some(left) => {
                self.taken += 1;
                self.left = left;
                Ok(line)
            }
            None => Err(HistoryFault::Line {
                line: self.taken + 1,
            }),
        }
    }
}

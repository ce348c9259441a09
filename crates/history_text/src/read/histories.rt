// The histories of all channels.
ghost use Rattle.std.specs.Prelude.{◌≡◌, [], IfErr, IfOk, Ok};
ghost use Rattle.ssd_formats.specs.HistoryText.{histories_of_lines, read_history as histories_of_text};
ghost use Rattle.history_text.specs.LinesLeft.{Reads, StopsAt, items_of};

use crate::fault::HistoryFault;
use crate::read::entries::read_channel;
use crate::read::lines::Lines;
use ssd_geo::{Entry, ImageHead, Items};
use std::alloc::Global;

// The histories of so many channels.
fn read_channels(
    alloc: Global,
    lines: &mut Lines,
    channels: u8,
) -> Result<Vec<Items<Entry>>, HistoryFault>
    ensures { Reads (items_of result) (histories_of_lines channels [] lines.old) lines.new }
{
    let mut histories = Vec::new(alloc);
    for channel in 0..channels {
        let history = read_channel(alloc, lines, channel)?;
        if histories.push(history).is_err() {
            return Err(HistoryFault::Memory);
        }
    }
    Ok(histories)
}

/// Reads the histories of all channels from a text that has nothing else, or finds its first wrong line.
pub fn read_history(
    alloc: Global,
    text: &[u8],
    head: &ImageHead,
) -> Result<Vec<Items<Entry>>, HistoryFault>
    ensures histories { IfOk result (λ histories.
        histories_of_text head.now.shape.channels text.now ≡ Ok histories.items) }
    ensures fault { IfErr result (λ fault.
        StopsAt fault (histories_of_text head.now.shape.channels text.now)) }
{
    let mut lines = Lines::new(text);
    let histories = read_channels(alloc, &mut lines, head.shape.channels)?;
    if lines.is_done() {
        return Ok(histories);
    }
    Err(HistoryFault::Line {
        line: lines.taken() + 1,
    })
}

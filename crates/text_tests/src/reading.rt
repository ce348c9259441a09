//! Histories read back from texts that were written by hand, most of them wrong in one line.
use crate::small_runs::{ONE_PAGE_ANSWERS, ONE_PAGE_HISTORY, head_of};
use history_text::{HistoryFault, read_history};
use std::alloc::Global;
use std::test::Fail;

// The number of the line that is wrong, or 0 where the text is read.
fn wrong_line(alloc: Global, channels: u8, text: &[u8]) -> Result<u64, Fail> {
    match read_history(alloc, text, &head_of(alloc, channels)?) {
        Ok(_) => Ok(0),
        Err(HistoryFault::Line { line }) => Ok(line),
        Err(HistoryFault::Memory) => Err(HistoryFault::Memory.into()),
    }
}

#[test]
fn a_whole_run_is_more_than_its_history(rt: HostRuntime) -> Result<(), Fail> {
    let alloc = rt.alloc();
    let mut text = ONE_PAGE_HISTORY.to_vec(alloc)?;
    text.extend_from_slice(ONE_PAGE_ANSWERS)?;
    assert_eq!(rt; wrong_line(alloc, 1, &text)?, 6);
    Ok(())
}

// A text behind another, in which a slash stands for LF.
fn text_of(alloc: Global, front: &[u8], words: &[u8]) -> Result<Vec<u8>, Fail> {
    let mut text = front.to_vec(alloc)?;
    for byte in words {
        text.push(if *byte == b'/' { b'\n' } else { *byte })?;
    }
    Ok(text)
}

// The first case with another wrong line. A case is the number of that line, or 0 where the text is read, and the
// text.
fn first_other(
    alloc: Global,
    channels: u8,
    front: &[u8],
    cases: &'static [u8],
) -> Result<Option<&'static [u8]>, Fail> {
    for case in cases.split(|byte| *byte == b'\n') {
        let [digit, b' ', words @ ..] = case else {
            return Ok(Some(case));
        };
        let text = text_of(alloc, front, words)?;
        if wrong_line(alloc, channels, &text)? != digit.wrapping_sub(b'0') as u64 {
            return Ok(Some(case));
        }
    }
    Ok(None)
}

const LINES_OF_A_CHANNEL: &[u8] = b"0 channel 0 0/\n\
      1 \n\
      1 channel 1 0/\n\
      1 channel 00 0/\n\
      1 channels 0 0/\n\
      1 channel 0/\n\
      1 channel 0 0 0/\n\
      1 channel 0 4194305/\n\
      2 channel 0 4194304/\n\
      1 channel 0 0\r/\n\
      1 channel 0 0\n\
      1 /channel 0 0/\n\
      2 channel 0 0/channel 1 0/\n\
      2 channel 0 0//";

const LINES_OF_TWO_CHANNELS: &[u8] = b"0 channel 0 0/channel 1 0/\n\
      2 channel 0 0/";

#[test]
fn a_channel_tells_its_number_and_its_entries(rt: HostRuntime) -> Result<(), Fail> {
    let alloc = rt.alloc();
    assert_eq!(rt; first_other(alloc, 1, b"", LINES_OF_A_CHANNEL)?, None);
    assert_eq!(rt; first_other(alloc, 2, b"", LINES_OF_TWO_CHANNELS)?, None);
    Ok(())
}

const LINES_OF_ENTRIES: &[u8] = b"0 channel 0 1/0 0.0 trim 5/\n\
      3 channel 0 2/0 0.0 trim 5/\n\
      3 channel 0 1/0 0.0 trim 5/1 0.0 trim 5/\n\
      2 channel 0 1/0 0.0 trim 5\n\
      2 channel 0 1/0 0.0 trim 5\r/\n\
      2 channel 0 1/1 0.0 trim 5/\n\
      2 channel 0 1/00 0.0 trim 5/\n\
      3 channel 0 2/0 0.0 trim 5/0 0.0 trim 5/\n\
      2 channel 0 2/0 0.0 trim 05/5 0.0 trim 5/\n\
      2 channel 0 1/0 0.0/\n\
      2 channel 0 1/0/\n\
      2 channel 0 1/0 0 trim 5/\n\
      2 channel 0 1/0 0.0.0 trim 5/\n\
      2 channel 0 1/0 256.0 trim 5/\n\
      2 channel 0 1/0 0.4294967296 trim 5/\n\
      2 channel 0 1/0 0.0  trim 5/\n\
      2 channel 0 1/ 0 0.0 trim 5/\n\
      2 channel 0 1/0 0.0 trim 5 /";

// What stands before the words of an entry.
const FRONT: &[u8] = b"channel 0 1\n0 0.0 ";

const WORDS_WITH_NUMBERS: &[u8] = b"0 write 4294967295 65535.4294967295/\n\
      2 write 05 0.0/\n\
      2 write +5 0.0/\n\
      2 write 5a 0.0/\n\
      2 write -5 0.0/\n\
      2 write 4294967296 0.0/\n\
      2 write 5 65536.0/\n\
      2 write 5 0.00/\n\
      2 write 5 .0/\n\
      0 look 5 page 0.0 18446744073709551615 open/\n\
      2 look 5 page 0.0 18446744073709551616 open/\n\
      0 sense 1 255.65535.65535 -32768/\n\
      0 sense 1 1.0.0 32767/\n\
      2 sense 1 1.0.0 32768/\n\
      2 sense 1 1.0.0 -32769/\n\
      2 sense 1 1.0.0 -0/\n\
      2 sense 1 1.0.0 -/\n\
      2 sense 1 1.0.0 --1/\n\
      2 sense 1 1.0 0/\n\
      2 pick 65536/\n\
      2 age 256.0 1/\n\
      2 note 65536 - 0 0 0/";

const WORDS_OF_NO_KIND: &[u8] = b"2 /\n\
      2 wrote 5 0.0/\n\
      2 write 5/\n\
      2 write 5 0.0 0/\n\
      2 look 5 page 0.0 0/\n\
      2 look 5 page 0.0 0 shut/\n\
      2 look 5 empty open/\n\
      2 look 5 none/\n\
      2 changed 4 page 0.0/\n\
      2 changed 4 page 0.0 0 open/\n\
      2 stay 20 full/\n\
      2 refused 0 noroom/\n\
      2 bad trim 0 3.1 0 fail/\n\
      2 bad/\n\
      2 bad write 0 3.1 0 failed/\n\
      2 bad erase 1 2/\n\
      2 fault leave 3/\n\
      2 fault sense 1 1.2.10/\n\
      2 note 4 - 0 0/\n\
      2 note 4 -1 0 0 0/";

#[test]
fn the_first_wrong_line_of_entries_is_named(rt: HostRuntime) -> Result<(), Fail> {
    let alloc = rt.alloc();
    assert_eq!(rt; first_other(alloc, 1, b"", LINES_OF_ENTRIES)?, None);
    assert_eq!(rt; first_other(alloc, 1, FRONT, WORDS_WITH_NUMBERS)?, None);
    assert_eq!(rt; first_other(alloc, 1, FRONT, WORDS_OF_NO_KIND)?, None);
    Ok(())
}

//! Which traces are read and which are not, against the rules of the format; the drive has eight pages of eight bytes.
use super::*;
use image_file::ReadStop;
use ssd_geo::{CellLaw, Content, ImageHead, Items, Shape, Tag, Trace, TraceCall, Verb};
use ssd_io::MemSource;
use std::alloc::Global;
use std::test::Fail;

// The head of an image with one channel of three dies, four superblocks and eight rows.
fn small_head(alloc: Global) -> Result<ImageHead, Fail> {
    Ok(ImageHead {
        shape: Shape::new(1, 1, 3, 4, 2, 64, 3, 6, 8, 8)?,
        read_levels: Items::new(vec![in alloc; 0, -60]?),
        iterations: 8,
        law: CellLaw {
            erased: -100,
            programmed: 100,
            spread: 0,
            seed: 1,
        },
        step: 10,
        session: 0,
        entries: Items::new(Vec::new(alloc)),
        weak: Items::new(Vec::new(alloc)),
        bad: Items::new(Vec::new(alloc)),
        full: false,
        place: 93,
    })
}

fn read(alloc: Global, text: &[u8]) -> Result<Result<Trace, ReadStop<TraceFault>>, Fail> {
    let mut source = MemSource::new(text.to_vec(alloc)?, Vec::new(alloc));
    Ok(read_trace(alloc, &mut source, &small_head(alloc)?))
}

fn fault(at: u64, fault: TraceFault) -> Result<Trace, ReadStop<TraceFault>> {
    Err(ReadStop::Fault { at, fault })
}

#[test]
fn a_trace_begins_with_its_first_line(rt: HostRuntime) -> Result<(), Fail> {
    for (text, line, want) in [
        (b"".as_slice(), 1, TraceFault::First),
        (b"\n", 2, TraceFault::First),
        (b"# only this\n\n", 3, TraceFault::First),
        (b"trace 1 0\n", 1, TraceFault::First),
        (b"trace 1 33\n", 1, TraceFault::First),
        (b"trace 1 01\n", 1, TraceFault::First),
        (b"trace 2 1\n", 1, TraceFault::First),
        (b"trace 1\n", 1, TraceFault::First),
        (b"# a trace\n0 read 1\n", 2, TraceFault::First),
        (b"trace  1 1\n", 1, TraceFault::Form),
        (b"trace 1 1\r", 1, TraceFault::Form),
    ] {
        assert_eq!(rt; read(rt.alloc(), text)?, fault(line, want));
    }
    Ok(())
}

#[test]
fn the_first_wrong_line_is_named(rt: HostRuntime) -> Result<(), Fail> {
    for (line, want) in [
        (b"0  read 1".as_slice(), TraceFault::Form),
        (b" 0 read 1", TraceFault::Form),
        (b"0 read 1 ", TraceFault::Form),
        (b"0 read\t1", TraceFault::Form),
        (b"00 read 1", TraceFault::Number),
        (b"x read 1", TraceFault::Number),
        (b"1 read 1", TraceFault::Actor),
        (b"99999999999999999999999 read 1", TraceFault::Actor),
        (b"0 fly 1", TraceFault::Verb),
        (b"0", TraceFault::Verb),
        (b"0 read", TraceFault::Form),
        (b"0 read 1 2", TraceFault::Form),
        (b"0 read 01", TraceFault::Number),
        (b"0 write 8 x00", TraceFault::Range),
        (b"0 read 99999999999999999999999", TraceFault::Range),
        (b"0 drain 0", TraceFault::Range),
        (b"0 drain 17", TraceFault::Range),
        (b"0 collect 1", TraceFault::Range),
        (b"0 age 0 3 0 1", TraceFault::Range),
        (b"0 age 0 0 4 1", TraceFault::Range),
        (b"0 age 0 0 0 16384", TraceFault::Range),
        (b"0 age 1 0 0 x", TraceFault::Range),
        (b"0 write 1 x0", TraceFault::Data),
        (b"0 write 1 xAB", TraceFault::Data),
        (b"0 write 1 x000000000000000000", TraceFault::Data),
        (b"0 write 1 g18446744073709551616", TraceFault::Data),
        (b"0 write 1 g01", TraceFault::Data),
        (b"0 write 1 00", TraceFault::Data),
    ] {
        let mut text = b"trace 1 1\n".to_vec(rt.alloc())?;
        text.extend_from_slice(line)?;
        assert_eq!(rt; read(rt.alloc(), text.as_slice())?, fault(2, want));
    }
    Ok(())
}

fn call(actor: u8, call: u32, verb: Verb) -> TraceCall {
    TraceCall {
        tag: Tag { actor, call },
        verb,
    }
}

fn listed(alloc: Global, bytes: &[u8]) -> Result<Content, Fail> {
    Ok(Content::Listed {
        list: Items::new(bytes.to_vec(alloc)?),
    })
}

#[test]
fn each_verb_is_read_and_calls_are_numbered_by_actor(rt: HostRuntime) -> Result<(), Fail> {
    let alloc = rt.alloc();
    let text = b"# every verb\n\ntrace 1 2\n0 write 7 x01ff\r\n1 write 0 g18446744073709551615\n\
        1 write 1 x\n0 read 7\n# halfway\r\n1 trim 0\n0 refresh 7\n0 collect 0\n1 drain 16\n1 age 0 2 3 16383";
    let words = Content::Words { number: u64::MAX };
    let age = Verb::Age {
        channel: 0,
        die: 2,
        sb: 3,
        amount: 16383,
    };
    let calls = vec![in alloc;
        call(
            0,
            0,
            Verb::Write {
                page: 7,
                content: listed(alloc, &[1, 255])?
            }
        ),
        call(
            1,
            0,
            Verb::Write {
                page: 0,
                content: words
            }
        ),
        call(
            1,
            1,
            Verb::Write {
                page: 1,
                content: listed(alloc, &[])?
            }
        ),
        call(0, 1, Verb::Read { page: 7 }),
        call(1, 2, Verb::Trim { page: 0 }),
        call(0, 2, Verb::Refresh { page: 7 }),
        call(0, 3, Verb::Collect { channel: 0 }),
        call(1, 3, Verb::Drain { count: 16 }),
        call(1, 4, age),
    ]?;
    let trace = Trace {
        actors: 2,
        calls: Items::new(calls),
    };
    assert_eq!(rt; read(alloc, text)?, Ok(trace));
    Ok(())
}

#[test]
fn a_line_has_at_most_40000_bytes(rt: HostRuntime) -> Result<(), Fail> {
    let alloc = rt.alloc();
    for (bytes, end, want) in [
        (40000, b"\n".as_slice(), TraceFault::First),
        (40000, b"\r\n", TraceFault::First),
        (40001, b"\n", TraceFault::Long),
        (40001, b"", TraceFault::Long),
        (90000, b"\n", TraceFault::Long),
    ] {
        let mut text = vec![in alloc; b'#'; bytes]?;
        text.extend_from_slice(end)?;
        let line = if want == TraceFault::Long { 1 } else { 2 };
        assert_eq!(rt; read(alloc, text.as_slice())?, fault(line, want));
    }
    Ok(())
}

#[test]
fn a_failed_read_stops_the_trace(rt: HostRuntime) -> Result<(), Fail> {
    let alloc = rt.alloc();
    for failing in [1, 2] {
        let text = b"trace 1 1\n0 read 1\n".to_vec(alloc)?;
        let mut source = MemSource::new(text, vec![in alloc; failing]?);
        let stop = read_trace(alloc, &mut source, &small_head(alloc)?);
        assert_eq!(rt; stop, Err(ReadStop::ReadFault));
    }
    Ok(())
}

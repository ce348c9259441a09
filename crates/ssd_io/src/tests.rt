use super::*;
use std::io;
use std::io::{BufWriter, ErrorKind, Read, Write};
use std::process::Abort;
use std::test::Fail;

/// A reader and a writer of which one call fails, counted from 1. The writer takes one byte a call, and none at its
/// third.
#[derive(Drop)]
pub struct Faulty<I> {
    pub inner: I,
    pub calls: u8,
    pub fails: u8,
}

impl<I: Read> Read for Faulty<I> {
    ghost remaining = { λ f. I.remaining f.inner };

    fn read(&mut self, buf: &mut [u8]) -> io::Result<usize> {
        self.calls = self.calls.saturating_add(1);
        if self.calls == self.fails {
            return Err(io::Error::from(ErrorKind::BrokenPipe));
        }
        self.inner.read(buf)
    }
}

impl<I: Write> Write for Faulty<I> {
    ghost contents = { λ f. I.contents f.inner };

    fn write(&mut self, buf: &[u8]) -> io::Result<usize> {
        self.calls = self.calls.saturating_add(1);
        if self.calls == self.fails {
            return Err(io::Error::from(ErrorKind::BrokenPipe));
        }
        let taken = if self.calls == 3 { 0 } else { buf.len().min(1) };
        self.inner.write(&buf[..taken])
    }

    fn flush(&mut self) -> io::Result<()> {
        self.inner.flush()
    }
}

type Given = (Result<usize, Failed>, [u8; 2]);

// Reads into two places a call, which hold dashes, and compares each answer and what stands there then.
fn compare_reads<S: Source>(rt: &impl Abort, source: &mut S, wants: &[Given]) {
    for want in wants {
        let mut into = *b"--";
        let answer = source.read(&mut into);
        assert_eq!(rt; (answer, into), *want);
    }
}

#[test]
fn a_source_gives_its_bytes_in_order(rt: HostRuntime) -> Result<(), Fail> {
    let alloc = rt.alloc();
    let all = [
        (Ok(2), *b"ab"),
        (Ok(2), *b"cd"),
        (Ok(1), *b"e-"),
        (Ok(0), *b"--"),
    ];
    let text = b"abcde";
    compare_reads(&rt, &mut SureSource::new(text.to_vec(alloc)?), &all);
    let mut never = MemSource::new(text.to_vec(alloc)?, Vec::new(alloc));
    compare_reads(&rt, &mut never, &all);
    compare_reads(&rt, &mut ReadSource::new(text.as_slice()), &all);
    Ok(())
}

#[test]
fn a_failed_read_loses_nothing(rt: HostRuntime) -> Result<(), Fail> {
    let alloc = rt.alloc();
    let second = [
        (Ok(2), *b"ab"),
        (Err(Failed), *b"--"),
        (Ok(2), *b"cd"),
        (Ok(1), *b"e-"),
    ];
    let text = b"abcde";
    let mut listed = MemSource::new(text.to_vec(alloc)?, vec![in alloc; 0, 2, 9]?);
    compare_reads(&rt, &mut listed, &second);
    let mut faulty = ReadSource::new(Faulty {
        inner: text.as_slice(),
        calls: 0,
        fails: 2,
    });
    compare_reads(&rt, &mut faulty, &second);
    Ok(())
}

#[test]
fn a_sink_takes_what_fits_and_fails_at_the_listed_calls(rt: HostRuntime) -> Result<(), Fail> {
    let alloc = rt.alloc();
    let mut sink = MemSink::new(alloc, vec![in alloc; 2]?, 5)?;
    for (piece, want) in [
        (b"abc", Ok(3)),
        (b"def", Err(Failed)),
        (b"def", Ok(2)),
        (b"fgh", Err(Failed)),
    ] {
        assert_eq!(rt; sink.write(piece), want);
    }
    assert_eq!(rt; sink.bytes(), b"abcde".as_slice());
    Ok(())
}

// A writer that fails, or takes nothing, makes the sink over it fail.
#[test]
fn a_failed_write_loses_nothing(rt: HostRuntime) -> Result<(), Fail> {
    let mut written = Vec::new(rt.alloc());
    let mut sink = WriteSink::new(Faulty {
        inner: &mut written,
        calls: 0,
        fails: 2,
    });
    for want in [Ok(1), Err(Failed), Err(Failed), Ok(1)] {
        assert_eq!(rt; sink.write(b"ab"), want);
    }
    assert_eq!(rt; written.as_slice(), b"aa".as_slice());
    Ok(())
}

#[test]
fn all_is_written_or_a_front_of_it(rt: HostRuntime) -> Result<(), Fail> {
    let alloc = rt.alloc();
    for (room, want, front) in [
        (0, Err(Failed), b"".as_slice()),
        (1, Err(Failed), b"c".as_slice()),
        (3, Ok(()), b"cab".as_slice()),
    ] {
        let mut sink = MemSink::new(alloc, Vec::new(alloc), room)?;
        assert_eq!(rt; write_all(&mut sink, b"cab"), want, "in {room}");
        assert_eq!(rt; sink.bytes(), front);
        assert_eq!(rt; write_all(&mut sink, b""), Ok(()));
    }
    // The second and all later calls fail.
    let mut sink = MemSink::new(alloc, vec![in alloc; 2, 3, 4]?, 9)?;
    assert_eq!(rt; write_all(&mut sink, b"cab"), Ok(()));
    assert_eq!(rt; write_all(&mut sink, b"le"), Err(Failed));
    assert_eq!(rt; sink.bytes(), b"cab".as_slice());
    Ok(())
}

#[test]
fn a_front_of_short_writes_stays(rt: HostRuntime) -> Result<(), Fail> {
    let mut written = Vec::new(rt.alloc());
    let mut sink = WriteSink::new(Faulty {
        inner: &mut written,
        calls: 0,
        fails: 2,
    });
    assert_eq!(rt; write_all(&mut sink, b"cab"), Err(Failed));
    assert_eq!(rt; written.as_slice(), b"c".as_slice());
    Ok(())
}

// The way of a program: the sink is lent a writer with a buffer, which is flushed behind it.
#[test]
fn a_lent_writer_is_flushed_behind_the_sink(rt: HostRuntime) -> Result<(), Fail> {
    let alloc = rt.alloc();
    let mut written = Vec::new(alloc);
    let mut buffered = BufWriter::new(alloc, &mut written)?;
    let mut sink = WriteSink::new(&mut buffered);
    assert_eq!(rt; write_all(&mut sink, b"cab"), Ok(()));
    buffered.flush()?;
    drop(buffered);
    assert_eq!(rt; written.as_slice(), b"cab".as_slice());
    Ok(())
}

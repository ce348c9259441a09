//! Runs that were worked out by hand, what is refused, and what a failing sink gets.
use crate::drives::{SAME, outcome};
use image_file::ImageFault;
use ssd_top::{Status, status_text};
use std::test::Fail;
use trace_text::TraceFault;

const TRACE: &[u8] = b"trace 1 1\n0 write 5 x0102\n0 read 5\n";

// A write to the page behind the last, and one of half a byte.
const BEHIND: &[u8] = b"trace 1 1\n0 write 8 x00\n";

const HALVED: &[u8] = b"trace 1 1\n0 write 1 x0\n";

const ONE_PAGE: &str = "channel 0 4
0 0.0 write 5 0.0
1 0.1 look 5 page 0.0 0 open
2 0.1 sense 1 1.0.0 0
3 0.1 leave 1
actor 0 2
0 ok
1 data 0 0102000000000000
summary
write 1 0 0 0
read 1 0 0 0
trim 0
move 0 condemn 0 changed 0 stay 0
pick 0 erase 0 bad 0 fault 0
sense 1
rung 1 0 0 0
hint 0 0 0
end
";

const NO_CALLS: &str = "channel 0 0
actor 0 0
summary
write 0 0 0 0
read 0 0 0 0
trim 0
move 0 condemn 0 changed 0 stay 0
pick 0 erase 0 bad 0 fault 0
sense 0
rung 0 0 0 0
hint 0 0 0
end
";

const TRIMMED: &str = "channel 0 4
0 0.0 look 3 empty
1 0.1 write 3 0.0
2 0.2 trim 3
3 0.3 look 3 empty
actor 0 4
0 empty
1 ok
2 ok
3 empty
summary
write 1 0 0 0
read 0 2 0 0
trim 1
move 0 condemn 0 changed 0 stay 0
pick 0 erase 0 bad 0 fault 0
sense 0
rung 0 0 0 0
hint 0 0 0
end
";

const OVERWRITTEN: &str = "channel 0 5
0 0.0 write 3 0.0
1 0.1 write 3 0.1
2 0.2 look 3 page 0.1 1 closed
3 0.2 sense 2 2.0.0 0
4 0.2 leave 2
actor 0 3
0 ok
1 ok
2 data 0 0200000000000000
summary
write 2 0 0 0
read 1 0 0 0
trim 0
move 0 condemn 0 changed 0 stay 0
pick 0 erase 0 bad 0 fault 0
sense 1
rung 1 0 0 0
hint 0 0 0
end
";

const SECOND_CHANNEL: &str = "channel 0 0
channel 1 1
0 0.0 write 1 0.0
actor 0 1
0 ok
summary
write 1 0 0 0
read 0 0 0 0
trim 0
move 0 condemn 0 changed 0 stay 0
pick 0 erase 0 bad 0 fault 0
sense 0
rung 0 0 0 0
hint 0 0 0
end
";

const TWO_ACTORS: &str = "channel 0 4
0 1.0 write 0 0.0
1 0.0 look 0 page 0.0 4294967296 open
2 0.0 sense 1 1.0.0 0
3 0.0 leave 1
actor 0 1
0 data 0 afcd1d7b39a820e2
actor 1 1
0 ok
summary
write 1 0 0 0
read 1 0 0 0
trim 0
move 0 condemn 0 changed 0 stay 0
pick 0 erase 0 bad 0 fault 0
sense 1
rung 1 0 0 0
hint 0 0 0
end
";

const DRAINED: &str = "channel 0 14
0 0.0 write 0 0.0
1 0.1 age 1.0 150
2 0.2 look 0 page 0.0 0 open
3 0.2 sense 2 1.0.0 0
4 0.2 sense 2 1.0.0 -60
5 0.2 leave 2
6 0.3 look 0 page 0.0 0 open
7 0.3 sense 6 1.0.0 0
8 0.3 sense 6 1.0.0 -60
9 0.3 move 6 0.1
10 0.3 leave 6
11 0.4 look 0 page 0.1 0 closed
12 0.4 sense 11 2.0.0 0
13 0.4 leave 11
actor 0 5
0 ok
1 ok
2 data 1 0900000000000000
3 drained 1 0=moved
4 data 0 0900000000000000
summary
write 1 0 0 0
read 2 0 0 0
trim 0
move 1 condemn 0 changed 0 stay 0
pick 0 erase 0 bad 0 fault 0
sense 5
rung 1 1 0 0
hint 1 0 1
end
";

const REFRESHED: &str = "channel 0 9
0 0.0 write 5 0.0
1 0.1 look 5 page 0.0 0 open
2 0.1 sense 1 1.0.0 0
3 0.1 move 1 0.1
4 0.1 leave 1
5 0.2 look 4 empty
6 0.3 look 5 page 0.1 0 closed
7 0.3 sense 6 2.0.0 0
8 0.3 leave 6
actor 0 4
0 ok
1 moved
2 empty
3 data 0 0102000000000000
summary
write 1 0 0 0
read 1 0 0 0
trim 0
move 1 condemn 0 changed 0 stay 0
pick 0 erase 0 bad 0 fault 0
sense 2
rung 1 0 0 0
hint 0 0 0
end
";

// Runs that were worked out by hand. The change makes two channels of one.
#[test]
fn runs_are_printed_as_worked_out(rt: HostRuntime) -> Result<(), Fail> {
    let table: [((usize, u8), &[u8], &str); 8] = [
        (SAME, TRACE, ONE_PAGE),
        (SAME, b"trace 1 1\n", NO_CALLS),
        (
            SAME,
            b"trace 1 1\n0 read 3\n0 write 3 x07\n0 trim 3\n0 read 3\n",
            TRIMMED,
        ),
        (
            SAME,
            b"trace 1 1\n0 write 3 x01\n0 write 3 x02\n0 read 3\n",
            OVERWRITTEN,
        ),
        ((8, 2), b"trace 1 1\n0 write 3 x00\n", SECOND_CHANNEL),
        (
            SAME,
            b"# two\ntrace 1 2\r\n1 write 0 g0\n0 read 0",
            TWO_ACTORS,
        ),
        (
            SAME,
            b"trace 1 1\n0 write 0 x09\n0 age 0 1 0 150\n0 read 0\n0 drain 4\n0 read 0\n",
            DRAINED,
        ),
        (
            SAME,
            b"trace 1 1\n0 write 5 x0102\n0 refresh 5\n0 refresh 4\n0 read 5\n",
            REFRESHED,
        ),
    ];
    for (change, trace, want) in table {
        let (status, output) = outcome(rt.alloc(), "run", change, trace, 0, 99, 4096)?;
        assert_eq!(rt; status, Status::Done);
        assert_eq!(rt; output.bytes(), want.as_bytes());
    }
    Ok(())
}

// A sink that fails from its second call on gets a front of the output; one with room for one byte
// gets that byte.
#[test]
fn a_failing_sink_gets_a_front(rt: HostRuntime) -> Result<(), Fail> {
    let (status, output) = outcome(rt.alloc(), "run", SAME, TRACE, 0, 2, 4096)?;
    assert!(rt; status == Status::Done || status == Status::WriteFault);
    assert!(rt; ONE_PAGE.as_bytes().starts_with(output.bytes()));
    let (status, output) = outcome(rt.alloc(), "run", SAME, TRACE, 0, 1, 4096)?;
    assert_eq!(rt; status, Status::WriteFault);
    assert_eq!(rt; output.bytes(), b"".as_slice());
    let (status, output) = outcome(rt.alloc(), "run", SAME, TRACE, 0, 99, 1)?;
    assert_eq!(rt; status, Status::WriteFault);
    assert_eq!(rt; output.bytes(), b"c".as_slice());
    Ok(())
}

fn image(at: u64, fault: ImageFault) -> Status {
    Status::Image { at, fault }
}

fn trace(line: u64, fault: TraceFault) -> Status {
    Status::Trace { line, fault }
}

// What isn't served: refused words and faults. Nothing is written.
#[test]
fn what_is_not_served_writes_nothing(rt: HostRuntime) -> Result<(), Fail> {
    let table: [(&str, (usize, u8), &[u8], u64, Status); 22] = [
        ("save --show=all", SAME, TRACE, 0, Status::Words),
        ("save", SAME, TRACE, 1, Status::ReadFault),
        ("save", (92, 1), b"", 0, image(93, ImageFault::Short)),
        ("save", SAME, b"", 0, trace(1, TraceFault::First)),
        ("race", SAME, TRACE, 0, Status::Words),
        ("race --show=summary", SAME, TRACE, 0, Status::Words),
        ("run --lanes=3", SAME, TRACE, 0, Status::Words),
        ("run --lanes=4 --lanes=4", SAME, TRACE, 0, Status::Words),
        ("format --lanes=4", SAME, TRACE, 0, Status::Words),
        ("gen", SAME, TRACE, 0, Status::Words),
        ("format", (92, 1), TRACE, 0, image(93, ImageFault::State)),
        ("format", (8, 0), TRACE, 0, image(8, ImageFault::Range)),
        ("", SAME, TRACE, 0, Status::Words),
        ("run", SAME, TRACE, 1, Status::ReadFault),
        ("run", (0, b'T'), TRACE, 0, image(0, ImageFault::Magic)),
        ("run", (8, 0), TRACE, 0, image(8, ImageFault::Range)),
        ("run", (60, 1), TRACE, 0, image(60, ImageFault::Diagonal)),
        ("run", SAME, b"", 0, trace(1, TraceFault::First)),
        ("run", SAME, BEHIND, 0, trace(2, TraceFault::Range)),
        ("run", SAME, HALVED, 0, trace(2, TraceFault::Data)),
        ("run", (92, 1), b"", 0, image(93, ImageFault::Short)),
        ("run", (49, 0x80), TRACE, 0, image(48, ImageFault::Range)),
    ];
    for (line, change, trace, reads, want) in table {
        let (status, output) = outcome(rt.alloc(), line, change, trace, reads, 99, 4096)?;
        assert_eq!(rt; status, want, "{line}");
        assert_eq!(rt; output.bytes(), b"".as_slice());
    }
    Ok(())
}

#[test]
fn each_status_has_its_number_and_text(rt: HostRuntime) -> Result<(), Fail> {
    let table = [
        (Status::Done, 0, ""),
        (Status::Words, 2, "words refused\n"),
        (
            image(20, ImageFault::Short),
            3,
            "image fault at 20: short\n",
        ),
        (
            trace(2, TraceFault::Data),
            4,
            "trace fault in line 2: data\n",
        ),
        (Status::ReadFault, 5, "read fault\n"),
        (Status::WriteFault, 6, "write fault\n"),
        (
            Status::HistoryLimit {
                channel: 0,
                length: 4_194_300,
            },
            7,
            "history limit on channel 0 at 4194300\n",
        ),
        (Status::OutOfMemory, 8, "out of memory\n"),
        (Status::DieFailed { die: 63 }, 9, "die 63 failed\n"),
    ];
    for (status, number, want) in table {
        let mut text = Vec::new(rt.alloc());
        assert_eq!(rt; status_text(&status, &mut text), Ok(()));
        assert_eq!(rt; text.as_slice(), want.as_bytes());
        assert_eq!(rt; status.number(), number);
    }
    Ok(())
}

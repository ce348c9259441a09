// Commands with their options.
use crate::drives::{IMAGE, SAME, outcome};
use ssd_top::Status;
use std::test::Fail;

const TRACE: &[u8] = b"trace 1 1\n0 write 5 x0102\n0 read 5\n";

const SUMMARY: &[u8] = b"summary
write 1 0 0 0
read 1 0 0 0
trim 0
move 0 condemn 0 changed 0 stay 0
pick 0 erase 0 bad 0 fault 0
sense 1
rung 1 0 0 0
hint 0 0 0
end
";

// The read finds no room: a look needs room for 256 entries behind it.
const STOPPED: &[u8] = b"channel 0 1
0 0.0 write 5 0.0
actor 0 1
0 ok
summary
write 1 0 0 0
read 0 0 0 0
trim 0
move 0 condemn 0 changed 0 stay 0
pick 0 erase 0 bad 0 fault 0
sense 0
rung 0 0 0 0
hint 0 0 0
end
";

#[test]
fn the_summary_alone_is_shown(rt: HostRuntime) -> Result<(), Fail> {
    for line in [
        "run --show=summary",
        "run --lanes=1 --show=summary --policy=oldest",
        "run --policy=roundrobin --show=summary --lanes=32 --history=4194304",
    ] {
        let (status, output) = outcome(rt.alloc(), line, SAME, TRACE, 0, 99, 4096)?;
        assert_eq!(rt; status, Status::Done, "{line}");
        assert_eq!(rt; output.bytes(), SUMMARY, "{line}");
    }
    Ok(())
}

#[test]
fn a_short_history_stops_a_run(rt: HostRuntime) -> Result<(), Fail> {
    let (status, output) = outcome(rt.alloc(), "run --history=256", SAME, TRACE, 0, 99, 4096)?;
    let channel = 0;
    let length = 1;
    assert_eq!(rt; status, Status::HistoryLimit { channel, length });
    assert_eq!(rt; output.bytes(), STOPPED);
    Ok(())
}

// The image in the second version: it tells of one codeword a page, and its session is the next.
#[test]
fn a_drive_is_formatted(rt: HostRuntime) -> Result<(), Fail> {
    let mut want = Vec::from_slice(rt.alloc(), &IMAGE[..7])?;
    want.extend_from_slice(b"2\x01")?;
    want.extend_from_slice(&IMAGE[8..36])?;
    want.push(1)?;
    want.extend_from_slice(&IMAGE[37..])?;
    let (status, output) = outcome(rt.alloc(), "format", SAME, TRACE, 0, 99, 4096)?;
    assert_eq!(rt; status, Status::Done);
    assert_eq!(rt; output.bytes(), want.as_slice());
    let (status, output) = outcome(rt.alloc(), "format", SAME, TRACE, 0, 1, 4096)?;
    assert_eq!(rt; status, Status::WriteFault);
    assert_eq!(rt; output.bytes(), b"".as_slice());
    Ok(())
}

// The first bytes of the number 1, and its last line, worked out apart.
#[test]
fn work_is_generated(rt: HostRuntime) -> Result<(), Fail> {
    let line = "gen --number=1";
    let (status, output) = outcome(rt.alloc(), line, SAME, b"", 1, 99_999, 65_536)?;
    assert_eq!(rt; status, Status::Done);
    assert_eq!(rt; output.bytes().len(), 61_292);
    assert!(rt;
        output
            .bytes()
            .starts_with(b"SSDIMG01\x02\x04\x10\x00\x10\x00\x00\x02")
    );
    assert!(rt; output.bytes().ends_with(b"0 age 1 1 11 20\n"));
    let (status, output) = outcome(rt.alloc(), line, SAME, b"", 1, 1, 65_536)?;
    assert_eq!(rt; status, Status::WriteFault);
    assert_eq!(rt; output.bytes(), b"".as_slice());
    Ok(())
}

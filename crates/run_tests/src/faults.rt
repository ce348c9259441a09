//! Runs over dies that fail: each call tells which die failed, and the calls after it are served. Worked out by the rules.
use crate::drives::{Faults, IMAGE, outcome_over};
use ssd_top::Status;
use std::alloc::{AllocError, Global};
use std::test::Fail;

const THREE_CALLS: &[u8] = b"trace 1 1\n0 write 0 x05\n0 read 0\n0 read 0\n";

const WRITE_FAULT: &str = "channel 0 3
0 0.0 bad write 0 0.0 1 fault
1 0.1 look 0 empty
2 0.2 look 0 empty
actor 0 3
0 diefault.1
1 empty
2 empty
summary
write 0 0 0 1
read 0 2 0 0
trim 0
move 0 condemn 0 changed 0 stay 0
pick 0 erase 0 bad 1 fault 0
sense 0
rung 0 0 0 0
hint 0 0 0
end
";

const SENSE_FAULT: &str = "channel 0 7
0 0.0 write 0 0.0
1 0.1 look 0 page 0.0 0 open
2 0.1 fault sense 1 1.0.0 0
3 0.1 leave 1
4 0.2 look 0 page 0.0 0 open
5 0.2 sense 4 1.0.0 0
6 0.2 leave 4
actor 0 3
0 ok
1 diefault.1
2 data 0 0500000000000000
summary
write 1 0 0 0
read 1 0 0 1
trim 0
move 0 condemn 0 changed 0 stay 0
pick 0 erase 0 bad 0 fault 1
sense 1
rung 1 0 0 0
hint 0 0 0
end
";

const LATER_SENSE_FAULT: &str = "channel 0 7
0 0.0 write 0 0.0
1 0.1 look 0 page 0.0 0 open
2 0.1 sense 1 1.0.0 0
3 0.1 leave 1
4 0.2 look 0 page 0.0 0 open
5 0.2 fault sense 4 1.0.0 0
6 0.2 leave 4
actor 0 3
0 ok
1 data 0 0500000000000000
2 diefault.1
summary
write 1 0 0 0
read 1 0 0 1
trim 0
move 0 condemn 0 changed 0 stay 0
pick 0 erase 0 bad 0 fault 1
sense 1
rung 1 0 0 0
hint 0 0 0
end
";

// Bytes of an image, and a trace behind them.
fn input_of(alloc: Global, parts: &[&[u8]]) -> Result<Vec<u8>, AllocError> {
    let mut bytes = Vec::new(alloc);
    for part in parts {
        bytes.extend_from_slice(part)?;
    }
    Ok(bytes)
}

// A program is one run of a die, and a sense two: its read level is set before the page is read.
#[test]
fn a_fault_of_a_run_is_told_by_its_call(rt: HostRuntime) -> Result<(), Fail> {
    let table: [(&'static [u64], &str); 4] = [
        (&[1], WRITE_FAULT),
        (&[2], SENSE_FAULT),
        (&[3], SENSE_FAULT),
        (&[4], LATER_SENSE_FAULT),
    ];
    for (runs, want) in table {
        let faults = [Faults {
            die: 1,
            runs,
            loads: &[],
        }];
        let input = input_of(rt.alloc(), &[&IMAGE, THREE_CALLS])?;
        let (status, output) = outcome_over(rt.alloc(), "run", input, 0, 99, 4096, &faults)?;
        assert_eq!(rt; status, Status::Done);
        assert_eq!(rt; output.bytes(), want.as_bytes());
    }
    Ok(())
}

// A die that isn't mounted is told by its number in the drive, and nothing is written.
#[test]
fn a_fault_of_a_mount_ends_the_run(rt: HostRuntime) -> Result<(), Fail> {
    let faults = [Faults {
        die: 2,
        runs: &[],
        loads: &[1],
    }];
    let input = input_of(
        rt.alloc(),
        &[&IMAGE, b"trace 1 1\n0 write 5 x0102\n0 read 5\n"],
    )?;
    let (status, output) = outcome_over(rt.alloc(), "run", input, 0, 99, 4096, &faults)?;
    assert_eq!(rt; status, Status::DieFailed { die: 2 });
    assert_eq!(rt; output.bytes(), b"".as_slice());
    Ok(())
}

// The weak block of die 0 in superblock 1, from its first erase on.
const WEAK: &[u8] = &[1, 0, 0, 0, 1, 0, 0, 0, 0, 0];

const WORN_TRACE: &[u8] = b"trace 1 1
0 write 0 x05
0 write 0 x06
0 read 0
0 read 0
0 age 0 1 3 9
0 age 0 0 2 150
0 read 0
0 write 1 x07
0 write 1 x08
0 read 0
";

// Call 0 finds die 1 failing, so that superblock 0 is bad. In call 1 the weak block refuses a program, which makes superblock 1
// bad too, and superblock 2 takes the page. The second read meets die 0's sixth run, and the first ageing die 1's second. Aged by
// 150 the page wants the second read level. Call 7 closes the stripe, but die 2 fails with the parity, so that superblock 2 is bad
// as well; the last free one is kept for collections, and the channel is full. What stands in superblock 2 is still read.
const WORN: &str = "channel 0 21
0 0.0 bad write 0 0.0 1 fault
1 0.1 bad write 0 1.0 0 fail
2 0.1 write 0 2.0
3 0.2 look 0 page 2.0 1 open
4 0.2 sense 3 0.2.0 0
5 0.2 leave 3
6 0.3 look 0 page 2.0 1 open
7 0.3 fault sense 6 0.2.0 0
8 0.3 leave 6
9 0.4 fault age 1.3 9
10 0.5 age 0.2 150
11 0.6 look 0 page 2.0 1 open
12 0.6 sense 11 0.2.0 0
13 0.6 sense 11 0.2.0 -60
14 0.6 leave 11
15 0.7 bad write 1 2.1 2 fault
16 0.8 refused 1 full
17 0.9 look 0 page 2.0 1 open
18 0.9 sense 17 0.2.0 0
19 0.9 sense 17 0.2.0 -60
20 0.9 leave 17
actor 0 10
0 diefault.1
1 ok
2 data 0 0600000000000000
3 diefault.0
4 diefault.1
5 ok
6 data 1 0600000000000000
7 diefault.2
8 full
9 data 1 0600000000000000
summary
write 1 1 0 2
read 3 0 0 1
trim 0
move 0 condemn 0 changed 0 stay 0
pick 0 erase 0 bad 3 fault 2
sense 5
rung 1 2 0 0
hint 2 0 0
end
";

#[test]
fn a_drive_is_served_while_its_dies_fail(rt: HostRuntime) -> Result<(), Fail> {
    let faults = [
        Faults {
            die: 0,
            runs: &[6],
            loads: &[],
        },
        Faults {
            die: 1,
            runs: &[1, 2],
            loads: &[],
        },
        Faults {
            die: 2,
            runs: &[1],
            loads: &[],
        },
    ];
    let input = input_of(rt.alloc(), &[&IMAGE[..88], WEAK, &IMAGE[90..], WORN_TRACE])?;
    let (status, output) = outcome_over(rt.alloc(), "run", input, 0, 99, 4096, &faults)?;
    assert_eq!(rt; status, Status::Done);
    assert_eq!(rt; output.bytes(), WORN.as_bytes());
    Ok(())
}

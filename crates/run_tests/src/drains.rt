//! Refreshes and drains over dies that fail: each tells which die failed, and a drain ends there, while the other hints wait.
//! Worked out by the rules.
use crate::drives::{Faults, IMAGE, outcome_over};
use ssd_top::Status;
use std::test::Fail;

const REFRESH: &[u8] = b"trace 1 1\n0 write 0 x05\n0 refresh 0\n0 read 0\n";

// A sense is two runs of its die, after the one of the write.
const REFRESH_FAULT: &str = "channel 0 7
0 0.0 write 0 0.0
1 0.1 look 0 page 0.0 0 open
2 0.1 fault sense 1 1.0.0 0
3 0.1 leave 1
4 0.2 look 0 page 0.0 0 open
5 0.2 sense 4 1.0.0 0
6 0.2 leave 4
actor 0 3
0 ok
1 diefault.1
2 data 0 0500000000000000
summary
write 1 0 0 0
read 1 0 0 0
trim 0
move 0 condemn 0 changed 0 stay 0
pick 0 erase 0 bad 0 fault 1
sense 1
rung 1 0 0 0
hint 0 0 0
end
";

// Two pages of one stripe want the second read level once they are aged by 150. Three reads ask for their refreshes.
const DRAINS: &[u8] = b"trace 1 1
0 write 0 x09
0 write 1 x08
0 age 0 1 0 150
0 age 0 2 0 150
0 read 0
0 read 1
0 read 0
0 drain 4
0 drain 4
0 drain 1
";

// Die 2 fails its ninth run: the second sense of page 1 in the first drain. The second drain takes the hint that is left, of page
// 0, which stands elsewhere by then.
const SENSE_FAULT: &str = "channel 0 29
0 0.0 write 0 0.0
1 0.1 write 1 0.1
2 0.2 age 1.0 150
3 0.3 age 2.0 150
4 0.4 look 0 page 0.0 0 closed
5 0.4 sense 4 1.0.0 0
6 0.4 sense 4 1.0.0 -60
7 0.4 leave 4
8 0.5 look 1 page 0.1 1 closed
9 0.5 sense 8 2.0.0 0
10 0.5 sense 8 2.0.0 -60
11 0.5 leave 8
12 0.6 look 0 page 0.0 0 closed
13 0.6 sense 12 1.0.0 0
14 0.6 sense 12 1.0.0 -60
15 0.6 leave 12
16 0.7 look 0 page 0.0 0 closed
17 0.7 sense 16 1.0.0 0
18 0.7 sense 16 1.0.0 -60
19 0.7 move 16 0.2
20 0.7 leave 16
21 0.7 look 1 page 0.1 1 closed
22 0.7 sense 21 2.0.0 0
23 0.7 fault sense 21 2.0.0 -60
24 0.7 leave 21
25 0.8 look 0 page 0.2 0 open
26 0.8 sense 25 0.0.1 0
27 0.8 move 25 0.3
28 0.8 leave 25
actor 0 10
0 ok
1 ok
2 ok
3 ok
4 data 1 0900000000000000
5 data 1 0800000000000000
6 data 1 0900000000000000
7 drained 2 0=moved 1=diefault.2
8 drained 1 0=moved
9 drained 0
summary
write 2 0 0 0
read 3 0 0 0
trim 0
move 2 condemn 0 changed 0 stay 0
pick 0 erase 0 bad 0 fault 1
sense 10
rung 0 3 0 0
hint 3 0 3
end
";

// Die 0 fails its second run, after the parity of the first stripe: the program of the first copy. Superblock 0 is bad then, and
// the second drain copies both pages to the next one.
const COPY_FAULT: &str = "channel 0 31
0 0.0 write 0 0.0
1 0.1 write 1 0.1
2 0.2 age 1.0 150
3 0.3 age 2.0 150
4 0.4 look 0 page 0.0 0 closed
5 0.4 sense 4 1.0.0 0
6 0.4 sense 4 1.0.0 -60
7 0.4 leave 4
8 0.5 look 1 page 0.1 1 closed
9 0.5 sense 8 2.0.0 0
10 0.5 sense 8 2.0.0 -60
11 0.5 leave 8
12 0.6 look 0 page 0.0 0 closed
13 0.6 sense 12 1.0.0 0
14 0.6 sense 12 1.0.0 -60
15 0.6 leave 12
16 0.7 look 0 page 0.0 0 closed
17 0.7 sense 16 1.0.0 0
18 0.7 sense 16 1.0.0 -60
19 0.7 bad copy 16 0.2 0 fault
20 0.7 leave 16
21 0.8 look 1 page 0.1 1 closed
22 0.8 sense 21 2.0.0 0
23 0.8 sense 21 2.0.0 -60
24 0.8 move 21 1.0
25 0.8 leave 21
26 0.8 look 0 page 0.0 0 closed
27 0.8 sense 26 1.0.0 0
28 0.8 sense 26 1.0.0 -60
29 0.8 move 26 1.1
30 0.8 leave 26
actor 0 10
0 ok
1 ok
2 ok
3 ok
4 data 1 0900000000000000
5 data 1 0800000000000000
6 data 1 0900000000000000
7 drained 1 0=diefault.0
8 drained 2 1=moved 0=moved
9 drained 0
summary
write 2 0 0 0
read 3 0 0 0
trim 0
move 2 condemn 0 changed 0 stay 0
pick 0 erase 0 bad 1 fault 0
sense 12
rung 0 3 0 0
hint 3 0 3
end
";

#[test]
fn a_drain_ends_where_a_die_fails(rt: HostRuntime) -> Result<(), Fail> {
    let table: [(&[u8], u8, &'static [u64], &str); 4] = [
        (REFRESH, 1, &[2], REFRESH_FAULT),
        (REFRESH, 1, &[3], REFRESH_FAULT),
        (DRAINS, 2, &[9], SENSE_FAULT),
        (DRAINS, 0, &[2], COPY_FAULT),
    ];
    for (trace, die, runs, want) in table {
        let faults = [Faults {
            die,
            runs,
            loads: &[],
        }];
        let mut input = Vec::from_slice(rt.alloc(), &IMAGE)?;
        input.extend_from_slice(trace)?;
        let (status, output) = outcome_over(rt.alloc(), "run", input, 0, 99, 4096, &faults)?;
        assert_eq!(rt; status, Status::Done);
        assert_eq!(rt; output.bytes(), want.as_bytes());
    }
    Ok(())
}

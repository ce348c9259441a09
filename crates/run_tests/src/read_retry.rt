//! Reads that climb past the first read level, worked out by the rules of read retry.
use crate::drives::{SAME, outcome};
use ssd_top::Status;
use std::test::Fail;

const RETRY_LEVEL: &str = "channel 0 6
0 0.0 write 0 0.0
1 0.1 age 1.0 150
2 0.2 look 0 page 0.0 0 open
3 0.2 sense 2 1.0.0 0
4 0.2 sense 2 1.0.0 -60
5 0.2 leave 2
actor 0 3
0 ok
1 ok
2 data 1 0900000000000000
summary
write 1 0 0 0
read 1 0 0 0
trim 0
move 0 condemn 0 changed 0 stay 0
pick 0 erase 0 bad 0 fault 0
sense 2
rung 0 1 0 0
hint 1 0 0
end
";

const PARITY_RECOVERS: &str = "channel 0 14
0 0.0 write 0 0.0
1 0.1 write 1 0.1
2 0.2 age 1.0 200
3 0.3 look 0 page 0.0 0 closed
4 0.3 sense 3 1.0.0 0
5 0.3 sense 3 1.0.0 -60
6 0.3 sense 3 1.0.0 -20
7 0.3 sense 3 1.0.0 -10
8 0.3 sense 3 1.0.0 0
9 0.3 sense 3 1.0.0 10
10 0.3 sense 3 1.0.0 20
11 0.3 sense 3 0.0.0 0
12 0.3 sense 3 2.0.0 0
13 0.3 leave 3
actor 0 4
0 ok
1 ok
2 ok
3 data 3 0100000000000000
summary
write 2 0 0 0
read 1 0 0 0
trim 0
move 0 condemn 0 changed 0 stay 0
pick 0 erase 0 bad 0 fault 0
sense 9
rung 0 0 0 1
hint 1 0 0
end
";

const OPEN_UNCORRECTABLE: &str = "channel 0 11
0 0.0 write 0 0.0
1 0.1 age 1.0 200
2 0.2 look 0 page 0.0 0 open
3 0.2 sense 2 1.0.0 0
4 0.2 sense 2 1.0.0 -60
5 0.2 sense 2 1.0.0 -20
6 0.2 sense 2 1.0.0 -10
7 0.2 sense 2 1.0.0 0
8 0.2 sense 2 1.0.0 10
9 0.2 sense 2 1.0.0 20
10 0.2 leave 2
actor 0 3
0 ok
1 ok
2 uncorrectable
summary
write 1 0 0 0
read 0 0 1 0
trim 0
move 0 condemn 0 changed 0 stay 0
pick 0 erase 0 bad 0 fault 0
sense 7
rung 0 0 0 0
hint 0 0 0
end
";

const NOISE: &str = "channel 0 10
0 0.0 write 5 0.0
1 0.1 look 5 page 0.0 0 open
2 0.1 sense 1 1.0.0 0
3 0.1 sense 1 1.0.0 -60
4 0.1 sense 1 1.0.0 -20
5 0.1 sense 1 1.0.0 -10
6 0.1 sense 1 1.0.0 0
7 0.1 sense 1 1.0.0 10
8 0.1 sense 1 1.0.0 20
9 0.1 leave 1
actor 0 2
0 ok
1 data 2 0102000000000000
summary
write 1 0 0 0
read 1 0 0 0
trim 0
move 0 condemn 0 changed 0 stay 0
pick 0 erase 0 bad 0 fault 0
sense 7
rung 0 0 1 0
hint 1 0 0
end
";

// The change spreads the noise of a programmed cell over 112 levels to each side.
#[test]
fn a_read_answers_by_the_first_rung_that_recovers(rt: HostRuntime) -> Result<(), Fail> {
    let table: [((usize, u8), &[u8], &str); 4] = [
        (
            SAME,
            b"trace 1 1\n0 write 0 x09\n0 age 0 1 0 150\n0 read 0\n",
            RETRY_LEVEL,
        ),
        (
            SAME,
            b"trace 1 1\n0 write 0 x01\n0 write 1 x02\n0 age 0 1 0 200\n0 read 0\n",
            PARITY_RECOVERS,
        ),
        (
            SAME,
            b"trace 1 1\n0 write 0 x01\n0 age 0 1 0 200\n0 read 0\n",
            OPEN_UNCORRECTABLE,
        ),
        ((44, 112), b"trace 1 1\n0 write 5 x0102\n0 read 5\n", NOISE),
    ];
    for (change, trace, want) in table {
        let (status, output) = outcome(rt.alloc(), "run", change, trace, 0, 99, 4096)?;
        assert_eq!(rt; status, Status::Done);
        assert_eq!(rt; output.bytes(), want.as_bytes());
    }
    Ok(())
}

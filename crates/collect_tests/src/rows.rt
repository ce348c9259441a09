//! Runs that collect garbage, as they were worked out by hand.
use crate::drives::{SOUND, outcome, outcome_for};
use ssd_top::Status;
use std::test::Fail;

// Twelve writes fill three superblocks: the first has three slots of garbage, the second one and the third none. The last free
// superblock is kept for copies, so the thirteenth write needs room.
const THIRTEEN_WRITES: &[u8] = b"trace 1 1
0 write 0 x00
0 write 1 x00
0 write 2 x00
0 write 3 x00
0 write 4 x00
0 write 5 x00
0 write 6 x00
0 write 7 x00
0 write 0 x00
0 write 1 x00
0 write 2 x00
0 write 4 x00
0 write 5 x00
";

// Superblock 0 has one live page, that of row 3.
const COLLECTED: &str = "channel 0 19
0 0.0 write 0 0.0
1 0.1 write 1 0.1
2 0.2 write 2 0.2
3 0.3 write 3 0.3
4 0.4 write 4 1.0
5 0.5 write 5 1.1
6 0.6 write 6 1.2
7 0.7 write 7 1.3
8 0.8 write 0 2.0
9 0.9 write 1 2.1
10 0.10 write 2 2.2
11 0.11 write 4 2.3
12 0.12 pick 0
13 0.12 look 3 page 0.3 3 closed
14 0.12 sense 13 2.0.1 0
15 0.12 move 13 3.0
16 0.12 leave 13
17 0.12 erase 0
18 0.12 write 5 3.1
actor 0 13
0 ok
1 ok
2 ok
3 ok
4 ok
5 ok
6 ok
7 ok
8 ok
9 ok
10 ok
11 ok
12 ok
summary
write 13 0 0 0
read 0 0 0 0
trim 0
move 1 condemn 0 changed 0 stay 0
pick 1 erase 1 bad 0 fault 0
sense 1
rung 0 0 0 0
hint 0 0 0
end
";

// Superblock 1 has three live pages, those of rows 5, 6 and 7.
const SECOND_COLLECTED: &str = "channel 0 27
0 0.0 write 0 0.0
1 0.1 write 1 0.1
2 0.2 write 2 0.2
3 0.3 write 3 0.3
4 0.4 write 4 1.0
5 0.5 write 5 1.1
6 0.6 write 6 1.2
7 0.7 write 7 1.3
8 0.8 write 0 2.0
9 0.9 write 1 2.1
10 0.10 write 2 2.2
11 0.11 write 4 2.3
12 0.12 pick 1
13 0.12 look 5 page 1.1 5 closed
14 0.12 sense 13 2.1.0 0
15 0.12 move 13 3.0
16 0.12 leave 13
17 0.12 look 6 page 1.2 6 closed
18 0.12 sense 17 0.1.1 0
19 0.12 move 17 3.1
20 0.12 leave 17
21 0.12 look 7 page 1.3 7 closed
22 0.12 sense 21 1.1.1 0
23 0.12 move 21 3.2
24 0.12 leave 21
25 0.12 erase 1
26 0.12 write 5 3.3
actor 0 13
0 ok
1 ok
2 ok
3 ok
4 ok
5 ok
6 ok
7 ok
8 ok
9 ok
10 ok
11 ok
12 ok
summary
write 13 0 0 0
read 0 0 0 0
trim 0
move 3 condemn 0 changed 0 stay 0
pick 1 erase 1 bad 0 fault 0
sense 3
rung 0 0 0 0
hint 0 0 0
end
";

#[test]
fn a_write_makes_room_by_a_round(rt: HostRuntime) -> Result<(), Fail> {
    let (status, output) = outcome(rt.alloc(), SOUND, THIRTEEN_WRITES)?;
    assert_eq!(rt; status, Status::Done);
    assert_eq!(rt; output.bytes(), COLLECTED.as_bytes());
    Ok(())
}

// No such superblock, one that is free, and one that is sealed without garbage: the superblock with the most garbage is picked in
// its place. One that is sealed with some is picked itself.
#[test]
fn an_unfit_answer_is_replaced_by_the_most_garbage(rt: HostRuntime) -> Result<(), Fail> {
    let table = [
        (65_535, COLLECTED),
        (3, COLLECTED),
        (2, COLLECTED),
        (1, SECOND_COLLECTED),
        (0, COLLECTED),
    ];
    for (answer, want) in table {
        let (status, output) = outcome_for(rt.alloc(), THIRTEEN_WRITES, answer)?;
        assert_eq!(rt; status, Status::Done, "for {answer}");
        assert_eq!(rt; output.bytes(), want.as_bytes(), "for {answer}");
    }
    Ok(())
}

const IDLE: &str = "channel 0 1
0 0.0 note 4 - 0 0 0
actor 0 1
0 idle
summary
write 0 0 0 0
read 0 0 0 0
trim 0
move 0 condemn 0 changed 0 stay 0
pick 0 erase 0 bad 0 fault 0
sense 0
rung 0 0 0 0
hint 0 0 0
end
";

const FIVE_WRITES: &[u8] = b"trace 1 1
0 write 0 x00
0 write 0 x00
0 write 0 x00
0 write 0 x00
0 write 1 x00
0 collect 0
";

const ONE_ROUND: &str = "channel 0 11
0 0.0 write 0 0.0
1 0.1 write 0 0.1
2 0.2 write 0 0.2
3 0.3 write 0 0.3
4 0.4 write 1 1.0
5 0.5 pick 0
6 0.5 look 0 page 0.3 3 closed
7 0.5 sense 6 2.0.1 0
8 0.5 move 6 1.1
9 0.5 leave 6
10 0.5 erase 0
actor 0 6
0 ok
1 ok
2 ok
3 ok
4 ok
5 collected 0
summary
write 5 0 0 0
read 0 0 0 0
trim 0
move 1 condemn 0 changed 0 stay 0
pick 1 erase 1 bad 0 fault 0
sense 1
rung 0 0 0 0
hint 0 0 0
end
";

#[test]
fn a_collect_is_idle_or_erases_what_has_garbage(rt: HostRuntime) -> Result<(), Fail> {
    let table: [(&[u8], &str); 2] = [
        (b"trace 1 1\n0 collect 0\n", IDLE),
        (FIVE_WRITES, ONE_ROUND),
    ];
    for (trace, want) in table {
        let (status, output) = outcome(rt.alloc(), SOUND, trace)?;
        assert_eq!(rt; status, Status::Done);
        assert_eq!(rt; output.bytes(), want.as_bytes());
    }
    Ok(())
}

// The blocks of die 0 in superblocks 2 and 3, from their making on.
const TWO_WEAK: &[u8] = &[2, 0, 0, 0, 2, 0, 0, 0, 0, 0, 0, 0, 3, 0, 0, 0, 0, 0];

const WORN_TRACE: &[u8] = b"trace 1 1
0 write 0 x00
0 write 1 x00
0 write 2 x00
0 write 3 x00
0 write 4 x00
0 write 5 x00
0 write 6 x00
0 write 7 x00
0 write 0 x01
0 trim 1
0 write 0 x01
0 read 3
";

// The weak block of superblock 2 takes the last room for the host. A copy meets that of superblock 3, which has the last free
// slot, so the second copy stays.
const WORN: &str = "channel 0 28
0 0.0 write 0 0.0
1 0.1 write 1 0.1
2 0.2 write 2 0.2
3 0.3 write 3 0.3
4 0.4 write 4 1.0
5 0.5 write 5 1.1
6 0.6 write 6 1.2
7 0.7 write 7 1.3
8 0.8 bad write 0 2.0 0 fail
9 0.8 refused 0 full
10 0.9 trim 1
11 0.10 pick 0
12 0.10 look 0 page 0.0 0 closed
13 0.10 sense 12 1.0.0 0
14 0.10 move 12 3.0
15 0.10 leave 12
16 0.10 look 2 page 0.2 2 closed
17 0.10 sense 16 0.0.1 0
18 0.10 bad copy 16 3.1 0 fail
19 0.10 leave 16
20 0.10 look 2 page 0.2 2 closed
21 0.10 sense 20 0.0.1 0
22 0.10 stay 20 readonly
23 0.10 leave 20
24 0.10 refused 0 readonly
25 0.11 look 3 page 0.3 3 closed
26 0.11 sense 25 2.0.1 0
27 0.11 leave 25
actor 0 12
0 ok
1 ok
2 ok
3 ok
4 ok
5 ok
6 ok
7 ok
8 full
9 ok
10 readonly
11 data 0 0000000000000000
summary
write 8 1 1 0
read 1 0 0 0
trim 1
move 1 condemn 0 changed 0 stay 1
pick 1 erase 0 bad 2 fault 0
sense 4
rung 1 0 0 0
hint 0 0 0
end
";

#[test]
fn a_worn_channel_refuses_writes_and_is_read(rt: HostRuntime) -> Result<(), Fail> {
    let (status, output) = outcome(rt.alloc(), TWO_WEAK, WORN_TRACE)?;
    assert_eq!(rt; status, Status::Done);
    assert_eq!(rt; output.bytes(), WORN.as_bytes());
    Ok(())
}

//! Branches that read what others write, beside their tick graphs.

use crate::printed::{Row, all_have_their_graphs};
use std::test::Fail;

static READERS: [Row; 7] = [
    // What is written comes before what is read.
    Row {
        activity: "()(x: int32, y: int32) cobegin x = 1 with y = x end",
        graph: "0 fork > 3 > 4: cobegin x = 1 with y = x end
1 surface join: cobegin x = 1 with y = x end
2 depth join: cobegin x = 1 with y = x end
3 act > 1 ~ 4: x = 1
4 act > 1: y = x
",
    },
    // Surface and depth are of different ticks. The first write is in the surface alone and the read in the depth alone; the second write is in the depth too.
    Row {
        activity: "(c: bool)(x: int32, y: int32) cobegin x = 1 await c x = 2 with await c y = x end",
        graph: "0 fork > 2 > 6: cobegin x = 1 await c x = 2 with await c y = x end
1 depth join: cobegin x = 1 await c x = 2 with await c y = x end
2 act > 3: x = 1
3 pause: await c
4 test > 5: await c
5 act > 1 ~ 8: x = 2
6 pause: await c
7 test > 8: await c
8 act > 1: y = x
",
    },
    // A loop comes back to what it began with. Its nodes are in its surface and in its depth. It doesn't end, so no edge leads to the join.
    Row {
        activity: "(c: bool)(x: int32, y: int32) cobegin repeat x = y await c end with await c y = 1 end",
        graph: "0 fork > 2 > 6: cobegin repeat x = y await c end with await c y = 1 end
1 depth join: cobegin repeat x = y await c end with await c y = 1 end
2 head > 3: repeat x = y await c end
3 act > 4: x = y
4 pause: await c
5 test > 2: await c
6 pause: await c
7 test > 8: await c
8 act > 1 ~ 3: y = 1
",
    },
    // Fields wait for what overlaps them.
    Row {
        activity: "()(x: int32, y: int32, z: int32) var s: S cobegin s.a = 1 with x = s.a with y = s.b with z = G(s) end",
        graph: "0 act > 1: var s: S
1 fork > 4 > 5 > 6 > 7: cobegin s.a = 1 with x = s.a with y = s.b with z = G(s) end
2 surface join: cobegin s.a = 1 with x = s.a with y = s.b with z = G(s) end
3 depth join: cobegin s.a = 1 with x = s.a with y = s.b with z = G(s) end
4 act > 2 ~ 5 ~ 7: s.a = 1
5 act > 2: x = s.a
6 act > 2: y = s.b
7 act > 2: z = G(s)
",
    },
    // Branches of branches wait too.
    Row {
        activity: "()(x: int32, y: int32, z: int32) cobegin cobegin x = 1 with y = x end with z = y end",
        graph: "0 fork > 3 > 8: cobegin cobegin x = 1 with y = x end with z = y end
1 surface join: cobegin cobegin x = 1 with y = x end with z = y end
2 depth join: cobegin cobegin x = 1 with y = x end with z = y end
3 fork > 6 > 7: cobegin x = 1 with y = x end
4 surface join > 1: cobegin x = 1 with y = x end
5 depth join: cobegin x = 1 with y = x end
6 act > 4 ~ 7: x = 1
7 act > 4 ~ 8: y = x
8 act > 1: z = y
",
    },
    // Conditions are read.
    Row {
        activity: "(c: bool)(x: int32) cobegin when x > 0 abort await c end with await c x = 1 end",
        graph: "0 fork > 2 > 7: cobegin when x > 0 abort await c end with await c x = 1 end
1 depth join: cobegin when x > 0 abort await c end with await c x = 1 end
2 start > 5: when x > 0 abort await c end
3 check > 4 > 6: when x > 0 abort await c end
4 depth end > 1: when x > 0 abort await c end
5 pause: await c
6 test > 4: await c
7 pause: await c
8 test > 9: await c
9 act > 1 ~ 3: x = 1
",
    },
    // A run reads and writes its arguments. Where it begins it writes its output, and where it resumes its target too. There it waits for what waits for it.
    Row {
        activity: "(c: bool)(x: int32, y: int32, z: int32, w: int32) cobegin run x = A(y)(z) with await c y = x with w = z await c end",
        graph: "0 fork > 2 > 4 > 7: cobegin run x = A(y)(z) with await c y = x with w = z await c end
1 depth join: cobegin run x = A(y)(z) with await c y = x with w = z await c end
2 start ~ 7: run x = A(y)(z)
3 resume > 1 ~ 6: run x = A(y)(z)
4 pause: await c
5 test > 6: await c
6 act > 1 ~ 3: y = x
7 act > 8: w = z
8 pause: await c
9 test > 1: await c
",
    },
];

#[test]
fn readers_wait_for_writers(rt: HostRuntime) -> Result<(), Fail> {
    all_have_their_graphs(&rt, rt.alloc(), &READERS)
}

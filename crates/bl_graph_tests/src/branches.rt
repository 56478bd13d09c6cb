//! Branches beside their tick graphs: the joins of a `cobegin`.

use crate::printed::{Row, all_have_their_graphs};
use std::test::Fail;

static BRANCHES: [Row; 5] = [
    // Strong branches end at their last nodes.
    Row {
        activity: "(c: bool)(x: int32, y: int32) cobegin x = 1 await c with await c y = 2 end y = 3",
        graph: "0 fork > 2 > 5: cobegin x = 1 await c with await c y = 2 end
1 depth join > 8: cobegin x = 1 await c with await c y = 2 end
2 act > 3: x = 1
3 pause: await c
4 test > 1: await c
5 pause: await c
6 test > 7: await c
7 act > 1: y = 2
8 act: y = 3
",
    },
    // A weak branch can be left at each node. What is in its depth leads to the join, however deep it stands.
    Row {
        activity: "(c: bool)(x: int32) cobegin weak x = 1 await c if c then x = 2 end x = 3 with await c end x = 4",
        graph: "0 fork > 2 > 8: cobegin weak x = 1 await c if c then x = 2 end x = 3 with await c end
1 depth join > 10: cobegin weak x = 1 await c if c then x = 2 end x = 3 with await c end
2 act > 3: x = 1
3 pause: await c
4 test > 1 > 5: await c
5 test > 1 > 6 > 7: if c then x = 2 end
6 act > 1 > 7: x = 2
7 act > 1: x = 3
8 pause: await c
9 test > 1: await c
10 act: x = 4
",
    },
    // Weak branches alone end at once where one does. Then the other is left where it pauses.
    Row {
        activity: "(c: bool)(x: int32, y: int32) cobegin weak x = 1 await c with weak y = 1 end x = 2",
        graph: "0 fork > 3 > 6: cobegin weak x = 1 await c with weak y = 1 end
1 surface join > 7: cobegin weak x = 1 await c with weak y = 1 end
2 depth join > 7: cobegin weak x = 1 await c with weak y = 1 end
3 act > 1 > 4: x = 1
4 pause > 1: await c
5 test > 2: await c
6 act > 1: y = 1
7 act: x = 2
",
    },
    // An empty branch leads to the surface join.
    Row {
        activity: "()(x: int32) cobegin x = 1 with end",
        graph: "0 fork > 1 > 3: cobegin x = 1 with end
1 surface join: cobegin x = 1 with end
2 depth join: cobegin x = 1 with end
3 act > 1: x = 1
",
    },
    // A walk closes through a depth join.
    // The assignment is in the surface and in the depth of the weak branch. From it the walk goes to the join, the outer head,
    // the fork, the inner head and back.
    Row {
        activity: "(c: bool)(x: int32) repeat cobegin weak repeat x = 1 await c end with await c end end",
        graph: "0 head > 1: repeat cobegin weak repeat x = 1 await c end with await c end end
1 fork > 3 > 7: cobegin weak repeat x = 1 await c end with await c end
2 depth join > 0: cobegin weak repeat x = 1 await c end with await c end
3 head > 2 > 4: repeat x = 1 await c end
4 act > 2 > 5: x = 1
5 pause > 2: await c
6 test > 2 > 3: await c
7 pause: await c
8 test > 2: await c
",
    },
];

#[test]
fn branches_have_their_joins(rt: HostRuntime) -> Result<(), Fail> {
    all_have_their_graphs(&rt, rt.alloc(), &BRANCHES)
}

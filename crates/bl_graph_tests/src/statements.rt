//! Statements beside their tick graphs.

use crate::printed::{Row, all_have_their_graphs};
use std::test::Fail;

static STATEMENTS: [Row; 12] = [
    // Acts lead to the next. What acts once leads to the next.
    Row {
        activity: "(a: int32)(x: int32) x = a var y: int32 = x F()(x)",
        graph: "0 act > 1: x = a
1 act > 2: var y: int32 = x
2 act: F()(x)
",
    },
    // A return leads nowhere. From a pause no edge leads on, and what a `return` ends has nothing behind it.
    Row {
        activity: "(a: int32)() returns int32 await a > 0 return a",
        graph: "0 pause: await a > 0
1 test > 2: await a > 0
2 act: return a
",
    },
    // An if leads to its arms.
    Row {
        activity: "(c: bool)(x: int32) if c then x = 1 else x = 2 end x = 3",
        graph: "0 test > 1 > 2: if c then x = 1 else x = 2 end
1 act > 3: x = 1
2 act > 3: x = 2
3 act: x = 3
",
    },
    // An if without else leads around its arm.
    Row {
        activity: "(c: bool)(x: int32) if c then x = 1 end x = 2",
        graph: "0 test > 1 > 2: if c then x = 1 end
1 act > 2: x = 1
2 act: x = 2
",
    },
    // An empty arm leads on.
    Row {
        activity: "(c: bool)(x: int32) if c then else x = 1 end x = 2",
        graph: "0 test > 1 > 2: if c then else x = 1 end
1 act > 2: x = 1
2 act: x = 2
",
    },
    // An elseif has the place of its condition.
    Row {
        activity: "(c: bool, d: bool)(x: int32) if c then x = 1 elseif d then x = 2 else x = 3 end x = 4",
        graph: "0 test > 1 > 2: if c then x = 1 elseif d then x = 2 else x = 3 end
1 act > 5: x = 1
2 test > 3 > 4: d
3 act > 5: x = 2
4 act > 5: x = 3
5 act: x = 4
",
    },
    // A while tests before each turn.
    Row {
        activity: "(c: bool)(x: int32) while c repeat x = 1 await c end x = 2",
        graph: "0 test > 1 > 4: while c repeat x = 1 await c end
1 act > 2: x = 1
2 pause: await c
3 test > 0: await c
4 act: x = 2
",
    },
    // A repeat goes back to its head.
    Row {
        activity: "(c: bool)(x: int32) repeat x = 1 await c end",
        graph: "0 head > 1: repeat x = 1 await c end
1 act > 2: x = 1
2 pause: await c
3 test > 0: await c
",
    },
    // An until tests behind each turn.
    Row {
        activity: "(c: bool)(x: int32) repeat x = 1 await c until c end x = 2",
        graph: "0 head > 2: repeat x = 1 await c until c end
1 test > 0 > 5: repeat x = 1 await c until c end
2 act > 3: x = 1
3 pause: await c
4 test > 1: await c
5 act: x = 2
",
    },
    // A run goes on where it resumes.
    Row {
        activity: "(a: int32)(x: int32, y: int32) run x = A(a)(y) y = x",
        graph: "0 start: run x = A(a)(y)
1 resume > 2: run x = A(a)(y)
2 act: y = x
",
    },
    // An abort leads to its end. The body pauses, so there is no surface end.
    Row {
        activity: "(c: bool)(x: int32) when c abort x = 1 await c x = 2 end x = 3",
        graph: "0 start > 3: when c abort x = 1 await c x = 2 end
1 check > 2 > 5: when c abort x = 1 await c x = 2 end
2 depth end > 7: when c abort x = 1 await c x = 2 end
3 act > 4: x = 1
4 pause: await c
5 test > 6: await c
6 act > 2: x = 2
7 act: x = 3
",
    },
    // A reset leads to its body. The body may end at once, so there are two ends.
    Row {
        activity: "(c: bool)(x: int32) when c reset if c then await c end x = 1 end x = 2",
        graph: "0 start > 4: when c reset if c then await c end x = 1 end
1 surface end > 8: when c reset if c then await c end x = 1 end
2 check > 4 > 6: when c reset if c then await c end x = 1 end
3 depth end > 8: when c reset if c then await c end x = 1 end
4 test > 5 > 7: if c then await c end
5 pause: await c
6 test > 7: await c
7 act > 1 > 3: x = 1
8 act: x = 2
",
    },
];

#[test]
fn statements_have_their_nodes_and_edges(rt: HostRuntime) -> Result<(), Fail> {
    all_have_their_graphs(&rt, rt.alloc(), &STATEMENTS)
}

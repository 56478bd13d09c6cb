//! A file of rows that fails behind a row at which the run traps, in any cut.

use crate::call::{Command, Course, smooth};
use crate::end::{End, ends};
use std::alloc::Global;
use std::test::Fail;

const DOUBLE: &str =
    "@[EntryPoint] activity M (i: int32)(o: int32) repeat o = i + i await true end end";

/// The first row traps, and ends at the twentieth byte.
const ROWS: &str = "tick,i\n1,2147483647\n2,1\n";

/// How many calls read the source, where each moves a byte; the last finds its end.
const SOURCE_CALLS: u32 = 82;

/// The file failed before the first row was handed over whole.
const UNREAD: End = End {
    status: 3,
    line: "read fault\n",
    out: "tick,o\n",
};

const TRAPPED: End = End {
    status: 6,
    line: "",
    out: "tick,o\ntrap\n",
};

/// Whether a run comes to this end where each call moves a byte, and this one fails.
fn ends_so(alloc: Global, call: u32, end: &End) -> Result<bool, Fail> {
    let mut case = smooth(Command::Run, DOUBLE.as_bytes(), ROWS);
    case.reads = Course {
        is_narrow: true,
        failing: call,
    };
    ends(alloc, &case, end)
}

#[test]
fn a_fault_behind_a_trap_comes_never(rt: HostRuntime) -> Result<(), Fail> {
    for byte in 1..21 {
        assert!(rt; ends_so(rt.alloc(), SOURCE_CALLS + byte, &UNREAD)?);
    }
    for byte in 21..26 {
        assert!(rt; ends_so(rt.alloc(), SOURCE_CALLS + byte, &TRAPPED)?);
    }
    Ok(())
}

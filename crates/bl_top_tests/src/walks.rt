//! Walks whose file of rows fails, and whose notes do.

use crate::call::{Case, Command, smooth};
use crate::end::{End, ends};
use crate::faults::failing;
use std::alloc::Global;
use std::test::Fail;

/// Its steps in a tick stand at 46 (in the first), 53 and 63; a later tick begins with the one at 63.
const DOUBLE: &str =
    "@[EntryPoint] activity M (i: int32)(o: int32) repeat o = i + i await true end end";

fn walk(rows: &'static str) -> Case<'static> {
    smooth(Command::Walk, DOUBLE.as_bytes(), rows)
}

/// How a walk of these rows ends whose second read of them fails: two calls read the source.
fn ends_unread(alloc: Global, rows: &'static str, end: &End) -> Result<bool, Fail> {
    let mut case = walk(rows);
    case.reads = failing(4);
    ends(alloc, &case, end)
}

#[test]
fn what_was_handed_over_is_walked(rt: HostRuntime) -> Result<(), Fail> {
    let end = End {
        status: 3,
        line: "tick 1: 46 53 63\nread fault\n",
        out: "tick,o\n1,6\n",
    };
    assert!(rt; ends_unread(rt.alloc(), "tick,i\n1,3\n2,", &end)?);
    Ok(())
}

#[test]
fn a_trap_in_it_decides(rt: HostRuntime) -> Result<(), Fail> {
    let end = End {
        status: 6,
        line: "tick 1: 46 53\n",
        out: "tick,o\ntrap\n",
    };
    assert!(rt; ends_unread(rt.alloc(), "tick,i\n1,2147483647\n2,1\n", &end)?);
    Ok(())
}

/// How a walk over a row and a bad line ends where this write on `notes` fails.
fn ends_untold(alloc: Global, call: u32, line: &'static str) -> Result<bool, Fail> {
    let mut case = walk("tick,i\n1,3\nx\n");
    case.notes = failing(call);
    let end = End {
        status: 4,
        line,
        out: "tick,o\n1,6\n",
    };
    ends(alloc, &case, &end)
}

/// The lines of the steps come in the first write, and that of the status in the second.
#[test]
fn notes_that_fail(rt: HostRuntime) -> Result<(), Fail> {
    assert!(rt; ends_untold(rt.alloc(), 1, "")?);
    assert!(rt; ends_untold(rt.alloc(), 2, "tick 1: 46 53 63\n")?);
    Ok(())
}

/// No step is told of a walk whose trace can't be written.
#[test]
fn a_trace_that_is_cut_off(rt: HostRuntime) -> Result<(), Fail> {
    let mut case = walk("tick,i\n1,3\n");
    case.writes = failing(1);
    let end = End {
        status: 4,
        line: "",
        out: "",
    };
    assert!(rt; ends(rt.alloc(), &case, &end)?);
    Ok(())
}

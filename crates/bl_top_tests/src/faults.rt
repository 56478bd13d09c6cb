//! Files that are absent, and calls of files and of `out` that fail.

use crate::call::{Case, Command, Course, SMOOTH, answer_of, smooth};
use crate::end::{End, ends};
use bl_io::Files;
use std::alloc::Global;
use std::test::Fail;

const LAMP: &str =
    "@[EntryPoint] activity M ()(on: bool) repeat on = true await true on = false await true end end";

const LAMP_ROWS: &str = "tick\n1\n2\n3\n4\n";

const DOUBLE: &str =
    "@[EntryPoint] activity M (i: int32)(o: int32) repeat o = i + i await true end end";

/// It traps in its third tick.
const CLIMB: &str = "@[EntryPoint] activity M ()(o: int8) var x: int8 = 125 repeat \
    x = x + 1 o = x await true end end";

const HEATER: &str = "// heater with a guard
struct Config var low: int32 var high: int32 end
const LIMIT: int32 = 90
function Clamp (v: int32, c: Config) returns int32
if v < c.low then return c.low end
if v > c.high then return c.high end
return v
end
activity Heat (t: int32)(power: int32)
var c: Config
c.low = 0
c.high = 100
repeat power = Clamp(60 - t, c) await true end
end
@[EntryPoint] activity Main (t: int32, stop: bool)(power: int32, alarm: bool)
repeat
when stop or t > LIMIT abort run Heat(t)(power) end
power = 0
alarm = true
await not stop and t <= LIMIT
alarm = false
end
end
";

const HEATER_ROWS: &str =
    "tick,t,stop\n1,20,false\n2,58,false\n3,95,false\n4,95,true\n5,50,false\n";

const HEATER_TRACE: &str =
    "tick,power,alarm\n1,40,false\n2,2,false\n3,0,true\n4,0,true\n5,10,false\n";

/// A run whose files are absent or fail.
struct Fault {
    text: Option<&'static str>,
    rows: Option<&'static str>,
    /// The read that fails; none at 0.
    failing: u32,
    end: End,
}

const FAULTS: [Fault; 5] = [
    Fault {
        text: None,
        rows: Some(LAMP_ROWS),
        failing: 0,
        end: End {
            status: 3,
            line: "read fault\n",
            out: "",
        },
    },
    // the header stands before any row is read
    Fault {
        text: Some(LAMP),
        rows: None,
        failing: 0,
        end: End {
            status: 3,
            line: "read fault\n",
            out: "tick,on\n",
        },
    },
    // two calls read the source, and the third the rows; the fourth fails
    Fault {
        text: Some(DOUBLE),
        rows: Some("tick,i\n1,3\n"),
        failing: 4,
        end: End {
            status: 3,
            line: "read fault\n",
            out: "tick,o\n1,6\n",
        },
    },
    // a trap in what was handed over decides
    Fault {
        text: Some(DOUBLE),
        rows: Some("tick,i\n1,2147483647\n"),
        failing: 4,
        end: End {
            status: 6,
            line: "",
            out: "tick,o\ntrap\n",
        },
    },
    Fault {
        text: Some(CLIMB),
        rows: Some(LAMP_ROWS),
        failing: 4,
        end: End {
            status: 6,
            line: "",
            out: "tick,o\n1,126\n2,127\ntrap\n",
        },
    },
];

fn bytes_of(text: Option<&'static str>) -> Option<&'static [u8]> {
    match text {
        Some(text) => Some(text.as_bytes()),
        None => None,
    }
}

impl Fault {
    fn case(&self) -> Case<'static> {
        Case {
            command: Command::Run,
            text: bytes_of(self.text),
            rows: bytes_of(self.rows),
            reads: failing(self.failing),
            writes: SMOOTH,
            notes: SMOOTH,
        }
    }
}

/// Nothing but this call fails.
pub fn failing(call: u32) -> Course {
    Course {
        is_narrow: false,
        failing: call,
    }
}

#[test]
fn files_that_fail(rt: HostRuntime) -> Result<(), Fail> {
    for fault in FAULTS.iter() {
        assert!(rt; ends(rt.alloc(), &fault.case(), &fault.end)?);
    }
    Ok(())
}

/// A run of the heater.
fn heated(reads: Course, writes: Course) -> Case<'static> {
    let mut case = smooth(Command::Run, HEATER.as_bytes(), HEATER_ROWS);
    case.reads = reads;
    case.writes = writes;
    case
}

/// The status of a run of the heater; nothing where `out` holds no front of its trace.
fn heater_status(alloc: Global, reads: Course, writes: Course) -> Result<Option<u8>, Fail> {
    let answer = answer_of(alloc, &heated(reads, writes))?;
    if HEATER_TRACE.as_bytes().starts_with(answer.out.held()) {
        Ok(Some(answer.status))
    } else {
        Ok(None)
    }
}

/// Two reads of the source and two of the rows.
#[test]
fn each_read_fails_in_turn(rt: HostRuntime) -> Result<(), Fail> {
    for call in 1..5 {
        assert_eq!(rt; heater_status(rt.alloc(), failing(call), SMOOTH)?, Some(3));
    }
    assert_eq!(rt; heater_status(rt.alloc(), failing(5), SMOOTH)?, Some(0));
    Ok(())
}

/// How many writes there are: each ends the run where it fails, and the one behind them comes never.
fn failing_writes(alloc: Global) -> Result<u32, Fail> {
    for call in 1..100 {
        match heater_status(alloc, SMOOTH, failing(call))? {
            Some(4) => {}
            Some(0) => return Ok(call - 1),
            _ => return Ok(0),
        }
    }
    Ok(0)
}

/// At least the header and a row are written.
#[test]
fn each_write_fails_in_turn(rt: HostRuntime) -> Result<(), Fail> {
    assert!(rt; failing_writes(rt.alloc())? > 1);
    Ok(())
}

/// The second write of a built text fails, and the first piece stays.
#[test]
fn a_built_text_stops_where_a_write_fails(rt: HostRuntime) -> Result<(), Fail> {
    let mut case = smooth(Command::Build, LAMP.as_bytes(), "");
    case.writes = failing(2);
    let answer = answer_of(rt.alloc(), &case)?;
    assert_eq!(rt; answer.status, 4);
    assert_eq!(rt; answer.out.held(), &bl_ctext::PRELUDE[..1024]);
    Ok(())
}

/// Each call moves a byte, and none fails.
const NARROW: Course = Course {
    is_narrow: true,
    failing: 0,
};

/// The heater's whole trace.
const WHOLE: End = End {
    status: 0,
    line: "",
    out: HEATER_TRACE,
};

/// The rows and the trace are the same where each call moves one byte.
#[test]
fn bytes_may_come_one_by_one(rt: HostRuntime) -> Result<(), Fail> {
    assert!(rt; ends(rt.alloc(), &heated(NARROW, NARROW), &WHOLE)?);
    Ok(())
}

/// The line on `notes` is the same too.
#[test]
fn notes_may_go_one_by_one(rt: HostRuntime) -> Result<(), Fail> {
    let mut case = smooth(Command::Run, LAMP.as_bytes(), "tick\n1\nx\n");
    case.notes = NARROW;
    let end = End {
        status: 5,
        line: "rows: line 3\n",
        out: "tick,on\n1,true\n",
    };
    assert!(rt; ends(rt.alloc(), &case, &end)?);
    Ok(())
}

/// Rows of the lamp, which come in three pieces.
fn many_rows(alloc: Global) -> Result<String, Fail> {
    let mut rows = String::from_str(alloc, "tick\n")?;
    for tick in 1..701 {
        rows.push_str(format!(in alloc; "{tick}\n")?.as_str())?;
    }
    Ok(rows)
}

/// What `out` holds, and how much is left of many rows, where this write on `out` fails.
fn held_and_left(alloc: Global, call: u32) -> Result<(usize, usize), Fail> {
    let rows = many_rows(alloc)?;
    let mut case = smooth(Command::Run, LAMP.as_bytes(), rows.as_str());
    case.writes = failing(call);
    let mut answer = answer_of(alloc, &case)?;
    let mut room = [0; 4096];
    let left = answer.files.next("rows", &mut room)?;
    Ok((answer.out.held().len(), left))
}

/// The file has 2,697 bytes. The header is the first write, and the ticks of a piece are written before the next one is read.
#[test]
fn rows_are_run_as_they_come(rt: HostRuntime) -> Result<(), Fail> {
    assert_eq!(rt; held_and_left(rt.alloc(), 2)?, (8, 1673));
    Ok(())
}

/// The ticks of the first piece are written in pieces, too.
#[test]
fn ticks_are_written_in_pieces(rt: HostRuntime) -> Result<(), Fail> {
    assert_eq!(rt; held_and_left(rt.alloc(), 3)?, (1032, 1673));
    Ok(())
}

//! What the first statement of a program's loop makes of the output, by the text of its ports and its own.

use crate::program::first_of;
use bl_eval::{Did, Values, act};
use bl_rules::accept;
use bl_tree::{List, NoMemory, Value};
use std::alloc::{AllocError, Global};

/// What the statements call.
const FUNCTIONS: &str =
    "function Count (n: int32) returns int32 var k: int32 while k < n repeat k = k + 1 end return k end
function Twice ()(x: int32) x = x + Count(x) end
function Fourfold ()(y: int32) Twice()(y) Twice()(y) end
function At (k: int32) returns int32 var x: [1]int32 x[k] = 7 return x[k] end
";

const PORTS: &str = "(a: int32, b: int32)(o: int32)";

/// How a statement ends.
#[derive(Clone, Copy, PartialEq, Eq, Debug)]
enum End {
    /// The value of the output is this.
    Out(i128),
    Trap,
    /// There is no such statement.
    None,
}

/// The statement, the values of `a`, `b` and `o` before it, and how it ends.
type Row = (&'static str, [i128; 3], End);

/// A loop of a function, outputs that stand by reference, and an index that may be outside of its array.
static ROWS: [Row; 8] = [
    ("o = Count(a)", [0, 0, 1], End::Out(0)),
    ("o = Count(a)", [65_536, 0, 1], End::Out(65_536)),
    ("o = Count(a)", [65_537, 0, 1], End::Trap),
    ("Fourfold()(o)", [0, 0, 5], End::Out(20)),
    ("Fourfold()(o)", [0, 0, 65_537], End::Trap),
    ("o = At(a)", [0, 0, 5], End::Out(7)),
    ("o = At(a)", [1, 0, 5], End::Trap),
    ("o = At(a)", [-1, 0, 5], End::Trap),
];

/// The program whose loop begins with a statement.
fn text(alloc: Global, statement: &str) -> Result<Vec<u8>, AllocError> {
    let mut text = Vec::new(alloc);
    text.extend_from_slice(FUNCTIONS.as_bytes())?;
    text.extend_from_slice(b"@[EntryPoint] activity M ")?;
    text.extend_from_slice(PORTS.as_bytes())?;
    text.extend_from_slice(b" repeat ")?;
    text.extend_from_slice(statement.as_bytes())?;
    text.extend_from_slice(b" await true end end")?;
    Ok(text)
}

fn values(alloc: Global, numbers: [i128; 3]) -> Result<Values, NoMemory> {
    let mut list = List::new(alloc);
    for n in numbers {
        list.push(Value::Number(n))?;
    }
    // The functions stand before the activity.
    Ok(Values { unit: 4, list })
}

fn end_of(did: Did, now: &Values) -> End {
    match (did, now.list.as_slice()) {
        (Did::Done, [_, _, Value::Number(n)]) => End::Out(*n),
        (Did::Trap, _) => End::Trap,
        _ => End::None,
    }
}

fn ended(alloc: Global, row: &Row) -> Result<End, NoMemory> {
    let (statement, numbers, _) = row;
    let text = text(alloc, statement)?;
    let Ok(accepted) = accept(alloc, &text) else {
        return Ok(End::None);
    };
    let program = accepted.program();
    let Some(first) = first_of(program) else {
        return Ok(End::None);
    };
    let before = values(alloc, *numbers)?;
    let mut now = values(alloc, *numbers)?;
    let did = act(alloc, program, &mut now, &before, first)?;
    Ok(end_of(did, &now))
}

/// Whether each row ends as it says.
fn all_end(alloc: Global, rows: &[Row]) -> Result<bool, NoMemory> {
    for row in rows {
        if ended(alloc, row)? != row.2 {
            return Ok(false);
        }
    }
    Ok(true)
}

#[test]
fn statements_end_as_they_must(rt: HostRuntime) -> Result<(), NoMemory> {
    assert!(&rt; all_end(rt.alloc(), &ROWS)?);
    Ok(())
}

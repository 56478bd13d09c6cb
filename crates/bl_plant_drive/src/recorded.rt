//! The record of a drive, tick by tick.

ghost use Rattle.std.specs.Prelude.{◌≡◌, [], ◌∷◌, ◌++◌, List as Elements, ℤ, OnErr, OnOk};
ghost use Rattle.bl_plant_drive.specs.inner.Ticks.{with_tick, with_trap};

use crate::driven::Driven;
use bl_tree::{Last, List, NoMemory, Row};
use std::alloc::Global;
use std::mem;

/// Records a tick, after which the run stands so. After want of memory the record is as before.
pub fn record_row(
    alloc: Global,
    ins: Row,
    outs: Row,
    last: Last,
    into: &mut Driven,
) -> Result<(), NoMemory>
    ensures ok { OnOk result (into.new ≡ with_tick into.old ins outs last) }
    ensures err { OnErr result (into.new ≡ into.old) }
{
    into.ins.push(ins)?;
    match into.trace.rows.push(outs) {
        Ok(()) => {
            into.trace.last = last;
            Ok(())
        }
        Err(_) => {
            drop_last(alloc, &mut into.ins);
            Err(NoMemory)
        }
    }
}

/// Records a tick that has trapped. After want of memory the record is as before.
pub fn record_trap(ins: Row, into: &mut Driven) -> Result<(), NoMemory>
    ensures ok { OnOk result (into.new ≡ with_trap into.old ins) }
    ensures err { OnErr result (into.new ≡ into.old) }
{
    into.ins.push(ins)?;
    into.trace.last = Last::Trap;
    Ok(())
}

fn drop_last(alloc: Global, rows: &mut List<Row>)
    ensures { (others : Elements (Elements ℤ)) (row : Elements ℤ) → rows.old ≡ others ++ row ∷ [] → rows.new ≡ others }
{
    let mut kept = mem::replace(rows, List::new(alloc)).into_vec();
    let _last = kept.pop();
    *rows = List::from_vec(kept);
}

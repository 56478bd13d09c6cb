//! Rows that plants keep and give.

ghost use Rattle.std.specs.Prelude.{◌≡◌, [], ◌∷◌, ◌++◌, length, IfOk, OnErr, OnOk};
ghost use Rattle.bl_plant.specs.Plants.{with_told};
ghost use Rattle.bl_plant.specs.inner.Given.{IsGiven};

use crate::log::Log;
use crate::plant::Give;
use bl_tree::{List, NoMemory, Row};
use std::alloc::Global;

/// Makes a row the same as another of its length.
fn write_row(from: &Row, into: &mut Row)
    requires { length from.now ≡ length into.old }
    ensures { into.new ≡ from.now }
{
    for k in 0..from.len() {
        into.set(k, from.at(k));
    }
}

fn copy_of(alloc: Global, row: &Row) -> Result<Row, NoMemory>
    ensures { IfOk result (λ copy. copy ≡ row.now) }
{
    let mut copy = Row::new(alloc, row.len())?;
    write_row(row, &mut copy);
    Ok(copy)
}

fn push_copy(alloc: Global, rows: &mut List<Row>, row: &Row) -> Result<(), NoMemory>
    ensures ok { OnOk result (rows.new ≡ rows.old ++ row.now ∷ []) }
    ensures err { OnErr result (rows.new ≡ rows.old) }
{
    let copy = copy_of(alloc, row)?;
    rows.push(copy)?;
    Ok(())
}

/// Gives a row, and keeps a copy of it in the log.
pub fn give_row(alloc: Global, log: &mut Log, row: &Row, into: &mut Row) -> Give
    requires { length row.now ≡ length into.old }
    ensures length { length into.new ≡ length into.old }
    ensures given { IsGiven log.old row.now result into.new log.new }
{
    match push_copy(alloc, &mut log.given, row) {
        Ok(()) => {
            write_row(row, into);
            Give::Gave
        }
        Err(_) => Give::NoMemory,
    }
}

/// Gives a row of one number, and keeps a copy of it in the log.
pub fn give_number(alloc: Global, log: &mut Log, number: i128, into: &mut Row) -> Give
    requires { length into.old ≡ 1 }
    ensures length { length into.new ≡ length into.old }
    ensures given { IsGiven log.old (number ∷ []) result into.new log.new }
{
    into.set(0, number);
    match push_copy(alloc, &mut log.given, into) {
        Ok(()) => Give::Gave,
        Err(_) => Give::NoMemory,
    }
}

/// Keeps a copy of the outputs that a plant is told.
pub fn keep_told(alloc: Global, log: &mut Log, outs: &Row) -> Result<(), NoMemory>
    ensures ok { OnOk result (log.new ≡ with_told log.old outs.now) }
    ensures err { OnErr result (log.new ≡ log.old) }
{
    push_copy(alloc, &mut log.told, outs)
}

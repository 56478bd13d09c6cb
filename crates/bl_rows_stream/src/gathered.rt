//! Rows of a file, gathered before any of them is used.

ghost use Rattle.std.specs.Prelude.{◌≡◌, ◌<◌, ◌≤◌, ℕ, List as Elements, Option as Maybe, None, length, IfOk};
ghost use Rattle.bl_io.specs.Count.{NeverFell, Rose};
ghost use Rattle.bl_io.specs.Left.{KeepsOthers};
ghost use Rattle.bl_io.specs.declared.pieces.TheConstants.{PIECE};
ghost use Rattle.bl_rows.specs.Reading.{most_lines};
ghost use Rattle.bl_rows_stream.specs.Gathered.{Gathers, finish_over};
ghost use Rattle.bl_rows_stream.specs.Streams.{ReadsLines};
ghost use Rattle.bl_rows_stream.specs.inner.Going.{reach};
ghost use Rattle.bl_rows_stream.specs.inner.Taking.{Taken, TakesOn, at_fault};
ghost use Rattle.bl_tree.specs.declared.row.Column.{Column as InputColumn};

use crate::finish::{Finish, finish_by};
use crate::pieces::{feed, finish, read_next};
use bl_io::{Files, IoFault, PIECE};
use bl_rows::{RowFault, Rows};
use bl_tree::{Column, Last, List, NoMemory, Row};
use std::alloc::Global;

/// How the rows of a file came to an end.
#[derive(Clone, Copy, PartialEq, Eq, Debug)]
pub enum RowsEnd {
    /// With the file's end, or with its first bad line, which has this fault.
    Read(Option<RowFault>),
    /// A read of the file failed.
    Unread,
}

/// What was gathered of a file of rows.
#[derive(Drop)]
pub struct Gathering {
    /// The rows up to the first bad line, or those of the lines that were handed over whole before a read failed.
    pub rows: Vec<Row>,
    pub end: RowsEnd,
}

/// Reads all rows of the named file that fit these columns.
pub fn gather<F: Files>(
    alloc: Global,
    columns: &List<Column>,
    name: &str,
    files: &mut F,
) -> Result<Gathering, NoMemory>
    ensures gathers { IfOk result (λ g. Gathers columns.now (F.left files.old name.now) (F.left files.new name.now) g.rows.items g.end) }
    ensures few { IfOk result (λ g. length g.rows.items ≤ 1000000) }
    ensures reads { ReadsLines most_lines (F.left files.old name.now) (F.left files.new name.now) }
    ensures read_fault { IfOk result (λ g. g.end ≡ RowsEnd.Unread → Rose (F.faults files.old name.now) (F.faults files.new name.now)) }
    ensures others { KeepsOthers name.now (F.left files.old) (F.left files.new) }
    ensures file_counts { NeverFell (F.faults files.old) (F.faults files.new) }
{
    let mut reader = Rows::new(alloc, columns)?;
    let mut rows = Vec::new(alloc);
    let mut room = [0; PIECE];
    'pieces: loop {
        if let Some(end) = take(&mut reader, name, &mut room, files, &mut rows)? {
            return Ok(Gathering { rows, end });
        }
    }
}

// Takes the rows that a piece makes whole, or those of the file's end.
fn take<F: Files>(
    reader: &mut Rows,
    name: &str,
    room: &mut [u8],
    files: &mut F,
    rows: &mut Vec<Row>,
) -> Result<Option<RowsEnd>, NoMemory>
    requires room { 0 < length room.old }
    requires short { length room.old ≤ PIECE }
    requires taken { (ins : Elements InputColumn) × (all : Maybe (Elements ℕ)) × Taken ins all (F.left files.old name.now) reader.old rows.old.items }
    ensures further { IfOk result (λ end. end ≡ None → reach reader.old < reach reader.new) }
    ensures takes { IfOk result (λ end. (ins : Elements InputColumn) (all : Maybe (Elements ℕ)) →
        Taken ins all (F.left files.old name.now) reader.old rows.old.items → TakesOn ins all (F.left files.new name.now) reader.new rows.new.items end) }
    ensures reads { (ins : Elements InputColumn) (all : Maybe (Elements ℕ)) →
        Taken ins all (F.left files.old name.now) reader.old rows.old.items → ReadsLines most_lines all (F.left files.new name.now) }
    ensures read_fault { IfOk result (λ end. end ≡ Some RowsEnd.Unread → Rose (F.faults files.old name.now) (F.faults files.new name.now)) }
    ensures others { KeepsOthers name.now (F.left files.old) (F.left files.new) }
    ensures file_counts { NeverFell (F.faults files.old) (F.faults files.new) }
{
    match read_next(reader, name, room, files) {
        Ok(0) => Ok(Some(RowsEnd::Read(finish(reader, rows)?))),
        Ok(n) => Ok(at_fault(feed(reader, &room[..n], rows)?)),
        Err(IoFault::Failed) => Ok(Some(RowsEnd::Unread)),
        Err(IoFault::NoMemory) => Err(NoMemory),
    }
}

// A fault ends the rows.
fn at_fault(fault: Option<RowFault>) -> Option<RowsEnd>
    ensures { result ≡ at_fault fault }
{
    match fault {
        None => None,
        Some(_) => Some(RowsEnd::Read(fault)),
    }
}

/// How a run ends that came to this over gathered rows.
pub fn finish_over(last: Last, end: RowsEnd) -> Finish
    ensures { result ≡ finish_over last end }
{
    match end {
        RowsEnd::Read(fault) => finish_by(last, fault),
        RowsEnd::Unread => match last {
            Last::Open => Finish::ReadFault,
            Last::Ended => Finish::Done,
            Last::Trap => Finish::Trapped,
        },
    }
}

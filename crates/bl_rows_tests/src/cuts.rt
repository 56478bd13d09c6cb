//! A file of four rows in two pieces, cut anywhere.

use bl_rows::{RowFault, Rows};
use bl_tree::{Column, List, NoMemory, Row, Scalar, Text, Width};
use std::alloc::Global;
use std::test::Fail;

const BYTES: &[u8] = b"tick,i\n1,3\n2,\"-1\"\n3,-40\n4,0";

/// The numbers of its rows.
const NUMBERS: [i128; 4] = [3, -1, -40, 0];

/// One input, a number of 32 bits.
fn columns(alloc: Global) -> Result<List<Column>, NoMemory> {
    let mut columns = List::new(alloc);
    columns.push(Column {
        name: Text::copy_of(alloc, "i")?,
        ty: Scalar::Int(Width::W32),
    })?;
    Ok(columns)
}

fn good(answer: Result<(), RowFault>) -> Result<(), Fail> {
    match answer {
        Ok(()) => Ok(()),
        Err(fault) => Err(Fail::new(format_args!("{fault:?}"))),
    }
}

/// The rows of two pieces.
fn rows_of(alloc: Global, first: &[u8], rest: &[u8]) -> Result<Vec<Row>, Fail> {
    let mut rows = Vec::new(alloc);
    let mut reader = Rows::new(alloc, &columns(alloc)?)?;
    good(reader.feed(first, &mut rows))?;
    good(reader.feed(rest, &mut rows))?;
    good(reader.finish(&mut rows))?;
    Ok(rows)
}

/// Whether these are the rows of the file.
fn are_all(rows: &[Row]) -> bool {
    if rows.len() != NUMBERS.len() {
        return false;
    }
    for k in 0..NUMBERS.len() {
        if rows[k].len() != 1 || rows[k].at(0) != NUMBERS[k] {
            return false;
        }
    }
    true
}

#[test]
fn rows_are_the_same_in_any_cut(rt: HostRuntime) -> Result<(), Fail> {
    for at in 0..BYTES.len() + 1 {
        let rows = rows_of(rt.alloc(), &BYTES[..at], &BYTES[at..])?;
        assert!(rt; are_all(&rows));
    }
    Ok(())
}

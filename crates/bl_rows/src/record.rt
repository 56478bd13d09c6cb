//! Records judged: the header, ticks and their values.

ghost use Rattle.std.specs.Prelude.{◌≡◌, ◌+◌, ◌<◌, ◌^◌, length, ℕ, Some, drop, IfOk, List, option_map, get_or, []};
ghost use Rattle.csv.specs.Records.{fields_of};
ghost use Rattle.bl_rows.specs.Fields.{is_header, row_of, value_of, values_of, records_in};
ghost use Rattle.std.specs.List.{slice_get};
ghost use Rattle.bl_rows.specs.inner.Found.{is_word, starts_with_tick};
ghost use Rattle.bl_rows.specs.Reading as spec;

use crate::fault::RowFault;
use crate::found::{Found, read_records};
use crate::number::{is_tick, value};
use crate::verdict::{RowPlace, Verdict};
use bl_tree::row::{Column, Row};
use bl_tree::{List, NoMemory, Scalar};
use csv::ByteRecord;
use std::alloc::Global;

/// The most lines that a row file may have.
pub const MOST_LINES: u32 = 1_000_000;

/// The most bytes that a line may have, its line feed apart.
pub const LONGEST_LINE: usize = 65_536;

/// The fault of a next line that is one too many, or has too many bytes.
pub fn over_limit(at: RowPlace, size: usize) -> Option<RowFault>
    requires { at.lines + 1 < 2 ^ 32 }
    ensures { result ≡ spec.over_limit at size }
{
    let line = at.lines + 1;
    if at.lines >= MOST_LINES {
        Some(RowFault::BadRow { line })
    } else if size > LONGEST_LINE {
        Some(RowFault::LongLine { line })
    } else {
        None
    }
}

/// What the next line is, which is within the limits. `fields` is room to read it in.
pub fn judge(
    alloc: Global,
    columns: &List<Column>,
    at: RowPlace,
    line: &[u8],
    fields: &mut ByteRecord,
) -> Result<Verdict, NoMemory>
    requires lines { at.lines < 1000000 }
    requires ticks { (t : ℕ) → at.ticks ≡ Some t → t < 1000000 }
    requires columns { length columns.now < 2 ^ 32 }
    ensures { IfOk result (λ verdict. verdict ≡ spec.judged_line columns.now at (records_in line.now)) }
{
    let number = at.lines + 1;
    match read_records(alloc, line, fields)? {
        Found::Nothing => Ok(Verdict::Passed),
        Found::One => judge_record(alloc, columns, at.ticks, number, fields),
        Found::Several => Ok(Verdict::Bad(bad_line(at.ticks, number))),
    }
}

fn bad_line(ticks: Option<u32>, line: u32) -> RowFault
    ensures { result ≡ spec.bad_line ticks line }
{
    match ticks {
        None => RowFault::BadHeader { line },
        Some(_) => RowFault::BadRow { line },
    }
}

// What the one record of a line is.
fn judge_record(
    alloc: Global,
    columns: &List<Column>,
    ticks: Option<u32>,
    line: u32,
    fields: &ByteRecord,
) -> Result<Verdict, NoMemory>
    requires ticks { (t : ℕ) → ticks ≡ Some t → t < 1000000 }
    requires columns { length columns.now < 2 ^ 32 }
    ensures { IfOk result (λ verdict. verdict ≡ spec.judged_record columns.now ticks line (fields_of fields.now)) }
{
    match ticks {
        None => {
            if header_matches(columns, fields) {
                Ok(Verdict::Header)
            } else {
                Ok(Verdict::Bad(RowFault::BadHeader { line }))
            }
        }
        Some(t) => match row(alloc, columns, t + 1, fields)? {
            Some(row) => Ok(Verdict::Numbers(row)),
            None => Ok(Verdict::Bad(RowFault::BadRow { line })),
        },
    }
}

// The field at a place.
#[tactic(auto, using(crate::proofs::Records::field_get))]
fn field(fields: &ByteRecord, k: usize) -> Option<&[u8]>
    ensures { option_map (λ f. f.now) result ≡ slice_get (fields_of fields.now) k }
{
    fields.get(k)
}

// Whether the field at a place is this word.
fn field_is(fields: &ByteRecord, k: usize, word: &[u8]) -> bool
    ensures { result ≡ is_word word.now (slice_get (fields_of fields.now) k) }
{
    match field(fields, k) {
        Some(field) => field == word,
        None => false,
    }
}

fn header_matches(columns: &List<Column>, fields: &ByteRecord) -> bool
    requires { length columns.now < 2 ^ 32 }
    ensures { result ≡ is_header columns.now (fields_of fields.now) }
{
    if fields.len() != columns.len() + 1 {
        return false;
    }
    if !field_is(fields, 0, b"tick") {
        return false;
    }
    'columns: for k in 0..columns.len() {
        if !field_is(fields, k + 1, columns[k].name.as_str().as_bytes()) {
            return false;
        }
    }
    true
}

// The row of a tick that a record gives, if it is one.
fn row(
    alloc: Global,
    columns: &List<Column>,
    tick: u32,
    fields: &ByteRecord,
) -> Result<Option<Row>, NoMemory>
    requires { length columns.now < 2 ^ 32 }
    ensures { IfOk result (λ row. row ≡ row_of columns.now tick (fields_of fields.now)) }
{
    if fields.len() != columns.len() + 1 {
        return Ok(None);
    }
    if !has_tick(tick, fields) {
        return Ok(None);
    }
    values(alloc, columns, fields)
}

// Whether the first field is the number of this tick.
fn has_tick(tick: u32, fields: &ByteRecord) -> bool
    ensures { result ≡ starts_with_tick tick (fields_of fields.now) }
{
    match field(fields, 0) {
        Some(field) => is_tick(tick, field),
        None => false,
    }
}

// The numbers that the fields after the first give the columns.
fn values(
    alloc: Global,
    columns: &List<Column>,
    fields: &ByteRecord,
) -> Result<Option<Row>, NoMemory>
    requires columns { length columns.now < 2 ^ 32 }
    requires fields { length (fields_of fields.now) ≡ length columns.now + 1 }
    ensures { IfOk result (λ row. row ≡ values_of columns.now (drop 1 (fields_of fields.now))) }
{
    let mut row = Row::new(alloc, columns.len() as u32)?;
    'columns: for k in 0..columns.len() {
        let Some(n) = value_at(columns[k].ty, fields, k + 1) else {
            return Ok(None);
        };
        row.set(k as u32, n);
    }
    Ok(Some(row))
}

// The number that the field at a place gives an input of this type.
fn value_at(ty: Scalar, fields: &ByteRecord, k: usize) -> Option<i128>
    requires { k < length (fields_of fields.now) }
    ensures { result ≡ value_of ty (get_or (fields_of fields.now) k []) }
{
    value(ty, field(fields, k)?)
}

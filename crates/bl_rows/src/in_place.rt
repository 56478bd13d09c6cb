//! Rows of plain lines, read where they lie.

ghost use Rattle.std.specs.Prelude.{◌≡◌, ◌+◌, ◌<◌, ◌≤◌, ◌^◌, get_or, length, true, IfOk, IfSome, Some};
ghost use Rattle.bl_tree.specs.declared.scalar.Scalar.TheVariants as of;
ghost use Rattle.bl_rows.specs.Fields.{within};
ghost use Rattle.bl_rows.specs.inner.Plain.{AreDigits, IsNumber, IsPlainRow, IsValue, IsValueBehind};

use crate::number::MOST_DIGITS;
use bl_tree::row::{Column, Row};
use bl_tree::{List, NoMemory, Scalar};
use std::alloc::Global;

/// A row, and the place of the line feed behind it.
#[derive(Drop)]
pub struct PlainRow {
    pub row: Row,
    pub end: usize,
}

/// The number of a field, and the place behind the field.
#[derive(Clone, Copy)]
struct Field {
    number: i128,
    end: usize,
}

/// Digits, and the place behind them.
#[derive(Clone, Copy)]
struct Digits {
    number: u64,
    end: usize,
}

/// The row that the first line of these bytes gives, where it is the row of this tick, in digits, words and commas alone, and
/// a line feed ends it. Most lines are such: no record is made of them, and no byte is copied.
pub fn plain_row(
    alloc: Global,
    columns: &List<Column>,
    tick: u32,
    bytes: &[u8],
) -> Result<Option<PlainRow>, NoMemory>
    requires { length columns.now < 2 ^ 32 }
    ensures { IfOk result (λ found. IfSome found (λ it. IsPlainRow columns.now tick bytes.now it.row it.end)) }
{
    let Some(first) = digits_from(bytes, 0) else {
        return Ok(None);
    };
    if first.number != tick as u64 {
        return Ok(None);
    }
    let mut row = Row::new(alloc, columns.len() as u32)?;
    let mut end = first.end;
    'columns: for k in 0..columns.len() {
        let Some(field) = value_behind(columns[k].ty, bytes, end) else {
            return Ok(None);
        };
        row.set(k as u32, field.number);
        end = field.end;
    }
    if !has_byte(bytes, end, b'\n') {
        return Ok(None);
    }
    Ok(Some(PlainRow { row, end }))
}

// Whether this byte is at a place.
fn has_byte(bytes: &[u8], at: usize, byte: u8) -> bool
    ensures inside { result ≡ true → at < length bytes.now }
    ensures byte { result ≡ true → get_or bytes.now at 0 ≡ byte }
{
    at < bytes.len() && bytes[at] == byte
}

// The value behind a comma.
fn value_behind(ty: Scalar, bytes: &[u8], at: usize) -> Option<Field>
    ensures { IfSome result (λ it. IsValueBehind ty bytes.now at it.number it.end) }
{
    if !has_byte(bytes, at, b',') {
        return None;
    }
    value_from(ty, bytes, at + 1)
}

// The value that begins at a place.
fn value_from(ty: Scalar, bytes: &[u8], start: usize) -> Option<Field>
    requires { start ≤ length bytes.now }
    ensures { IfSome result (λ it. IsValue ty bytes.now start it.number it.end) }
{
    match ty {
        Scalar::Bool => truth_from(bytes, start),
        Scalar::Int(_) | Scalar::Nat(_) | Scalar::Bits(_) => number_within(ty, bytes, start),
    }
}

// The number of a type that begins at a place.
fn number_within(ty: Scalar, bytes: &[u8], start: usize) -> Option<Field>
    requires { start ≤ length bytes.now }
    ensures number { IfSome result (λ it. IsNumber bytes.now start it.number it.end) }
    ensures within { IfSome result (λ it. within ty (Some it.number) ≡ Some it.number) }
{
    let field = number_from(bytes, start)?;
    if ty.contains(field.number) {
        Some(field)
    } else {
        None
    }
}

// The word of a bool that begins at a place.
fn truth_from(bytes: &[u8], start: usize) -> Option<Field>
    requires { start ≤ length bytes.now }
    ensures { IfSome result (λ it. IsValue of.Bool bytes.now start it.number it.end) }
{
    if bytes[start..].starts_with(b"true") {
        return Some(Field {
            number: 1,
            end: start + 4,
        });
    }
    if bytes[start..].starts_with(b"false") {
        return Some(Field {
            number: 0,
            end: start + 5,
        });
    }
    None
}

// The number that begins at a place.
fn number_from(bytes: &[u8], start: usize) -> Option<Field>
    requires { start ≤ length bytes.now }
    ensures { IfSome result (λ it. IsNumber bytes.now start it.number it.end) }
{
    if has_byte(bytes, start, b'-') {
        let digits = digits_from(bytes, start + 1)?;
        return Some(Field {
            number: -(digits.number as i128),
            end: digits.end,
        });
    }
    let digits = digits_from(bytes, start)?;
    Some(Field {
        number: digits.number as i128,
        end: digits.end,
    })
}

// The digits that begin at a place, up to another byte.
fn digits_from(bytes: &[u8], start: usize) -> Option<Digits>
    ensures { IfSome result (λ it. AreDigits bytes.now start it.number it.end) }
{
    let mut number: u64 = 0;
    'digits: for end in start..bytes.len() {
        let byte = bytes[end];
        if !byte.is_ascii_digit() {
            if end <= start || end - start > MOST_DIGITS {
                return None;
            }
            return Some(Digits { number, end });
        }
        number = number.checked_mul(10)?.checked_add((byte - b'0') as u64)?;
    }
    None
}

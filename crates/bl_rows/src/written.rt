//! Lines of traces, written into a room of bytes from a place on.

ghost use Rattle.std.specs.Prelude.{◌≡◌, ◌+◌, ◌*◌, ◌<◌, ◌≤◌, ◌++◌, ◌∷◌, [], decimal, length, min, take};
ghost use Rattle.std.specs.Fmt.{signed_decimal};
ghost use Rattle.bl_rows.specs.Text.{line_text, value_text, values_text};
ghost use Rattle.bl_tree.specs.declared.scalar.Scalar.TheVariants as of;

use bl_tree::row::{Column, Row};
use bl_tree::{List, Scalar};
use itoa::{Buffer, write_digits};

/// The most bytes of a value and the comma before it.
pub const VALUE_ROOM: usize = 41;

/// The most bytes of a tick's number and the line feed at the end of its line.
pub const TICK_ROOM: usize = 21;

/// Writes the line of a tick. This and all other functions here give the place behind what they write.
#[tactic(auto, unfolding(crate::specs::Text::line_text))]
pub fn write_line(room: &mut [u8], at: usize, tick: u32, outs: &List<Column>, row: &Row) -> usize
    requires { at + 41 * min (length outs.now) (length row.now) + 21 ≤ length room.old }
    ensures front { take result room.new ≡ take at room.old ++ line_text tick outs.now row.now }
    ensures size { length room.new ≡ length room.old }
    ensures within { result ≤ length room.old }
{
    let begin = write_number(room, at, tick as u64);
    let end = write_values(room, begin, outs, row);
    write_byte(room, end, b'\n')
}

// Writes the numbers of a row, each behind a comma.
fn write_values(room: &mut [u8], at: usize, outs: &List<Column>, row: &Row) -> usize
    requires { at + 41 * min (length outs.now) (length row.now) ≤ length room.old }
    ensures front { take result room.new ≡ take at room.old ++ values_text outs.now row.now }
    ensures size { length room.new ≡ length room.old }
    ensures few { result ≤ at + 41 * min (length outs.now) (length row.now) }
{
    let count = outs.len().min(row.len() as usize);
    let mut end = at;
    'outs: for k in 0..count {
        end = write_output(room, end, outs[k].ty, row.at(k as u32));
    }
    end
}

// Writes a comma and a number as a trace shows it.
fn write_output(room: &mut [u8], at: usize, ty: Scalar, n: i128) -> usize
    requires { at + 41 ≤ length room.old }
    ensures front { take result room.new ≡ take at room.old ++ (44 ∷ value_text ty n) }
    ensures size { length room.new ≡ length room.old }
    ensures few { result ≤ at + 41 }
{
    let begin = write_byte(room, at, b',');
    write_value(room, begin, ty, n)
}

// Writes a number as a trace shows it.
fn write_value(room: &mut [u8], at: usize, ty: Scalar, n: i128) -> usize
    requires { at + 40 ≤ length room.old }
    ensures front { take result room.new ≡ take at room.old ++ value_text ty n }
    ensures size { length room.new ≡ length room.old }
    ensures few { result ≤ at + 40 }
{
    match ty {
        Scalar::Bool => write_bytes(room, at, word(n)),
        Scalar::Int(_) | Scalar::Nat(_) | Scalar::Bits(_) => write_signed(room, at, n),
    }
}

// The word of a bool.
fn word(n: i128) -> &'static [u8]
    ensures word { result.now ≡ value_text of.Bool n }
    ensures few { length result.now ≤ 40 }
{
    if n == 0 { b"false" } else { b"true" }
}

// Writes a number with its sign, if it is less than 0.
fn write_signed(room: &mut [u8], at: usize, n: i128) -> usize
    requires { at + 40 ≤ length room.old }
    ensures front { take result room.new ≡ take at room.old ++ signed_decimal n }
    ensures size { length room.new ≡ length room.old }
    ensures few { result ≤ at + 40 }
{
    let size = n.unsigned_abs();
    if size > u64::MAX as u128 {
        return write_wide(room, at, n);
    }
    if n < 0 {
        let begin = write_byte(room, at, b'-');
        return write_number(room, begin, size as u64);
    }
    write_number(room, at, size as u64)
}

// The same of any number.
fn write_wide(room: &mut [u8], at: usize, n: i128) -> usize
    requires { at + 40 ≤ length room.old }
    ensures front { take result room.new ≡ take at room.old ++ signed_decimal n }
    ensures size { length room.new ≡ length room.old }
    ensures few { result ≤ at + 40 }
{
    let mut buffer = Buffer::new();
    write_bytes(room, at, buffer.format(n).as_bytes())
}

// Writes a number that has no sign.
#[tactic(auto, using(crate::proofs::Room::digits_within))]
fn write_number(room: &mut [u8], at: usize, n: u64) -> usize
    requires { at + 20 ≤ length room.old }
    ensures front { take result room.new ≡ take at room.old ++ decimal n }
    ensures size { length room.new ≡ length room.old }
    ensures few { result ≤ at + 20 }
{
    let end = at + digits_of(n);
    write_digits(n, room, end);
    end
}

// How many digits a number has.
fn digits_of(n: u64) -> usize
    ensures { result ≡ length (decimal n) }
{
    let mut left = n;
    let mut count = 0;
    'fours: while left >= 10_000 {
        left /= 10_000;
        count += 4;
    }
    count + few_digits_of(left)
}

// The same of a number of at most four digits.
fn few_digits_of(n: u64) -> usize
    requires { n < 10000 }
    ensures { result ≡ length (decimal n) }
{
    if n < 10 {
        1
    } else if n < 100 {
        2
    } else if n < 1000 {
        3
    } else {
        4
    }
}

/// Writes these bytes.
pub fn write_bytes(room: &mut [u8], at: usize, bytes: &[u8]) -> usize
    requires { at + length bytes.now ≤ length room.old }
    ensures end { result ≡ at + length bytes.now }
    ensures front { take result room.new ≡ take at room.old ++ bytes.now }
    ensures size { length room.new ≡ length room.old }
{
    let end = at + bytes.len();
    room[at..end].copy_from_slice(bytes);
    end
}

// Writes a byte.
fn write_byte(room: &mut [u8], at: usize, byte: u8) -> usize
    requires { at < length room.old }
    ensures end { result ≡ at + 1 }
    ensures front { take result room.new ≡ take at room.old ++ (byte ∷ []) }
    ensures size { length room.new ≡ length room.old }
{
    room[at] = byte;
    at + 1
}

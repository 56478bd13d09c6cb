//! Lines as records, each read alone.

ghost use Rattle.std.specs.Prelude.{◌≡◌, ◌==◌, ◌||◌, ◌<◌, length, [], ◌∷◌, true, false, IfOk, OnOk, option_map};
ghost use Rattle.csv.specs.Records.{fields_of};
ghost use Rattle.csv.specs.Reading.{ReadRecord, Ready, default_config, error_kind, is_flexible, reader_config, reader_state, reader_trim, source_of};
ghost use Rattle.csv.specs.Reading.{strip_bom, took_first};
ghost use Rattle.csv.specs.declared.parser.State.TheVariants as st;
ghost use Rattle.csv.specs.declared.reader.Trim.TheVariants as trim;
ghost use Rattle.bl_rows.specs.Fields.{records_in};
ghost use Rattle.bl_rows.specs.inner.Found.{Finds, IsMemory};

use bl_tree::NoMemory;
use csv::{ByteRecord, Error, ErrorKind, Reader, ReaderBuilder};
use std::alloc::{AllocError, Global};
use std::io::Read;

/// How many records a line has.
#[derive(Clone, Copy, PartialEq, Eq)]
pub enum Found {
    Nothing,
    One,
    Several,
}

/// Reads a line alone: how many records it has, and its first record into `fields`.
pub fn read_records(alloc: Global, line: &[u8], fields: &mut ByteRecord) -> Result<Found, NoMemory>
    ensures { IfOk result (λ found. Finds (records_in line.now) (fields_of fields.new) found) }
{
    if line.is_empty() {
        return Ok(Found::Nothing);
    }
    if split_plain(line, fields)? {
        return Ok(Found::One);
    }
    read_by_csv(alloc, line, fields)
}

// Most lines have no quote, no carriage return and no byte order mark: `csv` finds their fields between commas. A
// reader of its own costs more than all the rest of a line. False where the line is another one.
fn split_plain(line: &[u8], fields: &mut ByteRecord) -> Result<bool, AllocError>
    requires { 0 < length line.now }
    ensures { IfOk result (λ plain. plain ≡ true → records_in line.now ≡ fields_of fields.new ∷ []) }
{
    fields.clear();
    if line[0] == 0xef {
        return Ok(false);
    }
    let mut start = 0;
    'bytes: for i in 0..line.len() {
        if is_special(line[i]) {
            return Ok(false);
        }
        if line[i] == b',' {
            fields.push_field(&line[start..i])?;
            start = i + 1;
        }
    }
    fields.push_field(&line[start..])?;
    Ok(true)
}

// Whether a byte means more than itself inside a line, commas apart.
fn is_special(byte: u8) -> bool
    ensures { result ≡ ((byte == 34) || ((byte == 13) || (byte == 10))) }
{
    byte == b'"' || byte == b'\r' || byte == b'\n'
}

// The same for any line, by a reader of its own.
fn read_by_csv(alloc: Global, line: &[u8], fields: &mut ByteRecord) -> Result<Found, NoMemory>
    ensures { IfOk result (λ found. Finds (records_in line.now) (fields_of fields.new) found) }
{
    let mut reader = line_reader(alloc, line);
    if !next_record(&mut reader, fields)? {
        return Ok(Found::Nothing);
    }
    let mut second = ByteRecord::new(alloc);
    if next_record(&mut reader, &mut second)? {
        Ok(Found::Several)
    } else {
        Ok(Found::One)
    }
}

// A reader of one line: no header row, records of any length, no trimming.
fn line_reader<R: Read>(alloc: Global, line: R) -> Reader<R>
    ensures config { reader_config result ≡ default_config }
    ensures state { reader_state result ≡ st.StartRecord }
    ensures source { source_of R.remaining result ≡ option_map strip_bom (R.remaining line) }
    ensures trim { reader_trim result ≡ trim.None }
    ensures flexible { is_flexible result ≡ true }
    ensures ready { Ready result }
{
    ReaderBuilder::new()
        .has_headers(false)
        .flexible(true)
        .from_reader(alloc, line)
}

// The next record of a line's reader.
fn next_record<R: Read>(reader: &mut Reader<R>, fields: &mut ByteRecord) -> Result<bool, NoMemory>
    requires trim { reader_trim reader.old ≡ trim.None }
    requires flexible { is_flexible reader.old ≡ true }
    requires ready { Ready reader.old }
    ensures reads { IfOk result (λ found. ReadRecord R.remaining reader.old reader.new found (fields_of fields.new)) }
    ensures flexible { OnOk result (is_flexible reader.new ≡ true) }
    ensures ready { OnOk result (took_first reader.new ≡ true) }
{
    match reader.read_byte_record(fields) {
        Ok(found) => Ok(found),
        Err(error) => Err(no_memory(error)),
    }
}

// A flexible reader of bytes fails only for want of memory.
fn no_memory(error: Error) -> NoMemory
    requires { IsMemory (error_kind error) }
{
    match error.kind() {
        ErrorKind::Io(_) | ErrorKind::OutOfMemory => NoMemory,
        _ => unreachable!(),
    }
}

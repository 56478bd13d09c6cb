//! The lines that tell of plants.

ghost use Rattle.std.specs.Prelude.{◌≡◌, ◌++◌, IfOk, OnOk};
ghost use Rattle.bl_plant_drive_report.specs.Lines.{fault_line, gone_line, gone_lines, line_after, number_line, range_line, width_line};

use bl_plant_drive::{DriveFault, Gone};
use bl_tree::NoMemory;
use itoa::Buffer;
use std::alloc::Global;

/// The line of what stopped a drive; empty where nothing did.
pub fn line_of(alloc: Global, how: Result<(), DriveFault>) -> Result<Vec<u8>, NoMemory>
    ensures { IfOk result (λ line. line.items ≡ line_after how) }
{
    match how {
        Ok(()) => Ok(Vec::new(alloc)),
        Err(fault) => fault_line(alloc, fault),
    }
}

fn fault_line(alloc: Global, fault: DriveFault) -> Result<Vec<u8>, NoMemory>
    ensures { IfOk result (λ line. line.items ≡ fault_line fault) }
{
    match fault {
        DriveFault::Failed { name } => number_line(alloc, "plant ", name.number, " failed\n"),
        DriveFault::Absent { name } => {
            number_line(alloc, "plant shape: absent ", name.number, "\n")
        }
        DriveFault::Twice { name } => number_line(alloc, "plant shape: twice ", name.number, "\n"),
        DriveFault::Width { given, wanted } => width_line(alloc, given, wanted),
        DriveFault::Range { column, number } => range_line(alloc, column, number),
        DriveFault::NoMemory => Ok(Vec::new(alloc)),
    }
}

/// A line with a number.
fn number_line(alloc: Global, words: &str, number: u32, end: &str) -> Result<Vec<u8>, NoMemory>
    ensures { IfOk result (λ line. line.items ≡ number_line words.now number end.now) }
{
    let mut line = Vec::from_slice(alloc, words.as_bytes())?;
    let mut buffer = Buffer::new();
    line.extend_from_slice(buffer.format(number).as_bytes())?;
    line.extend_from_slice(end.as_bytes())?;
    Ok(line)
}

#[tactic(auto, unfolding(crate::specs::Lines::width_line))]
fn width_line(alloc: Global, given: u64, wanted: u32) -> Result<Vec<u8>, NoMemory>
    ensures { IfOk result (λ line. line.items ≡ width_line given wanted) }
{
    let mut line = Vec::from_slice(alloc, b"plant shape: width ")?;
    let mut buffer = Buffer::new();
    line.extend_from_slice(buffer.format(given).as_bytes())?;
    line.extend_from_slice(b" of ")?;
    line.extend_from_slice(buffer.format(wanted).as_bytes())?;
    line.extend_from_slice(b"\n")?;
    Ok(line)
}

#[tactic(auto, unfolding(crate::specs::Lines::range_line))]
fn range_line(alloc: Global, column: u32, number: i128) -> Result<Vec<u8>, NoMemory>
    ensures { IfOk result (λ line. line.items ≡ range_line column number) }
{
    let mut line = Vec::from_slice(alloc, b"plant shape: column ")?;
    let mut buffer = Buffer::new();
    line.extend_from_slice(buffer.format(column).as_bytes())?;
    line.extend_from_slice(b" number ")?;
    line.extend_from_slice(buffer.format(number).as_bytes())?;
    line.extend_from_slice(b"\n")?;
    Ok(line)
}

/// A line for each plant that was dropped. Fails only for want of memory.
pub fn gone_lines(alloc: Global, gone: &[Gone]) -> Result<Vec<u8>, NoMemory>
    ensures { IfOk result (λ text. text.items ≡ gone_lines gone.now) }
{
    let mut text = Vec::new(alloc);
    'gone: for plant in gone {
        append_gone(*plant, &mut text)?;
    }
    Ok(text)
}

#[tactic(auto, unfolding(crate::specs::Lines::gone_line))]
fn append_gone(gone: Gone, text: &mut Vec<u8>) -> Result<(), NoMemory>
    ensures { OnOk result (text.new.items ≡ text.old.items ++ gone_line gone) }
{
    let mut buffer = Buffer::new();
    text.extend_from_slice(b"plant ")?;
    text.extend_from_slice(buffer.format(gone.name.number).as_bytes())?;
    text.extend_from_slice(b" finished after ")?;
    text.extend_from_slice(buffer.format(gone.rows).as_bytes())?;
    Ok(text.extend_from_slice(b" rows\n")?)
}

//! The rows over which the generated program is run, and the lines that tell its outputs.

ghost use Rattle.std.specs.Prelude.{◌≡◌, ◌+ℤ◌, ◌++◌, [], ◌∷◌, pos, codes, length, IfOk, OnOk};
ghost use Rattle.bl_gen.specs.Outputs.{first_output, input_rows, last_output, line_text, report_text, sum_of};

use bl_tree::{List, NoMemory, Row};
use itoa::Buffer;
use std::alloc::{AllocError, Global};

/// Over how many rows it is run.
const TICKS: u32 = 100;

/// The rows over which the program is run: the numbers 1 to 100. Fails only for want of memory.
pub fn input_rows(alloc: Global) -> Result<List<Row>, NoMemory>
    ensures { IfOk result (λ rows. rows ≡ input_rows) }
{
    let mut rows = List::new(alloc);
    'ticks: for before in 0..TICKS {
        let row = row_of(alloc, before + 1)?;
        rows.push(row)?;
    }
    Ok(rows)
}

fn row_of(alloc: Global, number: u32) -> Result<Row, NoMemory>
    ensures { IfOk result (λ row. row ≡ pos number ∷ []) }
{
    let mut row = Row::new(alloc, 1)?;
    row.set(0, i128::from(number));
    Ok(row)
}

/// The four lines of a run of a program of so many stages that gave these rows of outputs. Fails only for want of memory, as which
/// it also counts that 128 bits don't hold a sum.
#[tactic(auto, unfolding(crate::specs::Outputs::report_text))]
pub fn report(alloc: Global, stages: u32, rows: &[Row]) -> Result<Vec<u8>, NoMemory>
    ensures { IfOk result (λ text. text.items ≡ report_text stages rows.now) }
{
    let sum = sum_of(rows)?;
    Ok(lines(alloc, stages, rows.len() as u64, sum, last_of(rows))?)
}

/// The lines with these numbers.
fn lines(
    alloc: Global,
    stages: u32,
    ticks: u64,
    sum: i128,
    last: i128,
) -> Result<Vec<u8>, AllocError>
    ensures { IfOk result (λ text. text.items
        ≡ line_text (codes "stages ") (pos stages) ++ (line_text (codes "ticks ") (pos ticks)
        ++ (line_text (codes "sum ") sum ++ line_text (codes "last ") last))) }
{
    let mut text = Vec::new(alloc);
    append_line("stages ", i128::from(stages), &mut text)?;
    append_line("ticks ", i128::from(ticks), &mut text)?;
    append_line("sum ", sum, &mut text)?;
    append_line("last ", last, &mut text)?;
    Ok(text)
}

#[tactic(auto, unfolding(crate::specs::Outputs::line_text))]
fn append_line(word: &str, number: i128, text: &mut Vec<u8>) -> Result<(), AllocError>
    ensures { OnOk result (text.new.items ≡ text.old.items ++ line_text word.now number) }
{
    let mut buffer = Buffer::new();
    text.extend_from_slice(word.as_bytes())?;
    text.extend_from_slice(buffer.format(number).as_bytes())?;
    text.extend_from_slice(b"\n")?;
    Ok(())
}

/// What the outputs come to together.
fn sum_of(rows: &[Row]) -> Result<i128, NoMemory>
    ensures { IfOk result (λ sum. sum ≡ sum_of rows.now) }
{
    let mut sum: i128 = 0;
    'rows: for row in rows {
        sum = sum.checked_add(first_output(row)).ok_or(NoMemory)?;
    }
    Ok(sum)
}

/// The output of the last row, or 0 where there is none.
fn last_of(rows: &[Row]) -> i128
    ensures { result ≡ last_output rows.now }
{
    if rows.is_empty() {
        return 0;
    }
    first_output(&rows[rows.len() - 1])
}

/// The first number of a row, or 0 where it has none.
fn first_output(row: &Row) -> i128
    ensures { result ≡ first_output row.now }
{
    if row.len() == 0 { 0 } else { row.at(0) }
}

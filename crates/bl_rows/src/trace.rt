//! Lines of traces.

ghost use Rattle.std.specs.Prelude.{◌≡◌, ◌++◌, ◌-◌, ◌^◌, ◌<◌, length, IfOk, OnOk};
ghost use Rattle.bl_rows.specs.Text.{header_text, last_text, line_text, lines_from, text_of};

use crate::trace_text::TraceText;
use bl_tree::row::{Column, Last, Row, Trace};
use bl_tree::{List, NoMemory};
use std::alloc::{AllocError, Global};

/// The first line of a trace, with its line feed (docs/FORMATS.md, "Traces"). Fails only for want of memory.
#[tactic(auto, unfolding(crate::specs::Text::header_text))]
pub fn header(alloc: Global, outs: &List<Column>) -> Result<Vec<u8>, NoMemory>
    ensures { IfOk result (λ text. text.items ≡ header_text outs.now) }
{
    let mut text = Vec::from_slice(alloc, b"tick")?;
    'outs: for column in outs.iter() {
        text.extend_from_slice(b",")?;
        text.extend_from_slice(column.name.as_str().as_bytes())?;
    }
    text.extend_from_slice(b"\n")?;
    Ok(text)
}

/// The line of a tick, with its line feed (docs/FORMATS.md, "Traces"). Numbers without a column and columns without a
/// number are left out. Fails only for want of memory.
pub fn line(alloc: Global, tick: u32, outs: &List<Column>, row: &Row) -> Result<Vec<u8>, NoMemory>
    ensures { IfOk result (λ text. text.items ≡ line_text tick outs.now row.now) }
{
    let mut text = TraceText::new(alloc);
    text.append_line(tick, outs, row)?;
    Ok(text.into_bytes())
}

/// The whole text of a trace. Fails only for want of memory.
#[tactic(auto, unfolding(crate::specs::Text::text_of))]
pub fn text(alloc: Global, outs: &List<Column>, trace: &Trace) -> Result<Vec<u8>, NoMemory>
    requires { length trace.now.rows < 2 ^ 32 - 1 }
    ensures { IfOk result (λ text. text.items ≡ text_of trace.now outs.now) }
{
    let head = header(alloc, outs)?;
    let mut text = TraceText::new(alloc);
    text.append(head.as_slice())?;
    append_lines(outs, trace.rows.as_slice(), &mut text)?;
    text.append(last_line(trace.last).as_bytes())?;
    Ok(text.into_bytes())
}

// The lines of rows, of which the first is that of tick 1.
fn append_lines(outs: &List<Column>, rows: &[Row], text: &mut TraceText) -> Result<(), AllocError>
    requires { length rows.now < 2 ^ 32 - 1 }
    ensures { OnOk result (text.new ≡ text.old ++ lines_from 1 outs.now rows.now) }
{
    let mut tick = 1;
    'rows: for row in rows {
        text.append_line(tick, outs, row)?;
        tick += 1;
    }
    Ok(())
}

fn last_line(last: Last) -> &'static str
    ensures { result.now ≡ last_text last }
{
    match last {
        Last::Open => "",
        Last::Ended => "ended\n",
        Last::Trap => "trap\n",
    }
}

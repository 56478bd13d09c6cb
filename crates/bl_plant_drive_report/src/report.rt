//! What is told of a drive.

ghost use Rattle.std.specs.Prelude.{◌≡◌, IfOk};
ghost use Rattle.bl_plant_drive_report.specs.Reports.{IsReportOf, end_after, end_at, fault_end, has_begun, text_shown};
ghost use Rattle.bl_rows.specs.Text.{text_of};

use crate::lines::{gone_lines, line_of};
use bl_plant_drive::{DriveFault, Driven};
use bl_tree::{Column, Last, List, NoMemory, Trace};
use std::alloc::Global;

/// How a drive ended.
#[derive(Clone, Copy, PartialEq, Eq, Debug)]
pub enum End {
    /// All ticks were done, or the run has ended.
    Done,
    /// A tick trapped.
    Trapped,
    /// A plant has failed.
    PlantFault,
    /// A name means no plant or was named before, the widths don't fit, or a number is outside its type.
    PlantShape,
    NoMemory,
}

/// What is told of a drive, of which nothing was written yet.
#[derive(Drop)]
pub struct Report {
    /// The text of its trace; nothing where it didn't begin.
    pub text: Vec<u8>,
    /// A line for each plant that has finished.
    pub told: Vec<u8>,
    /// The line of the fault that stopped it; empty where there was none, and for want of memory.
    pub line: Vec<u8>,
    pub end: End,
}

/// What is told of a drive that ended so. Fails only for want of memory.
pub fn report_of(
    alloc: Global,
    outs: &List<Column>,
    driven: &Driven,
    how: Result<(), DriveFault>,
) -> Result<Report, NoMemory>
    ensures { IfOk result (IsReportOf outs.now driven.now how) }
{
    let text = text_of(alloc, outs, driven, how)?;
    let told = gone_lines(alloc, driven.gone.as_slice())?;
    let line = line_of(alloc, how)?;
    Ok(Report {
        text,
        told,
        line,
        end: end_of(driven.trace.last, how),
    })
}

fn text_of(
    alloc: Global,
    outs: &List<Column>,
    driven: &Driven,
    how: Result<(), DriveFault>,
) -> Result<Vec<u8>, NoMemory>
    ensures { IfOk result (λ text. text.items ≡ text_shown outs.now driven.now.trace how) }
{
    if has_begun(how) {
        return trace_text(alloc, outs, &driven.trace);
    }
    Ok(Vec::new(alloc))
}

/// The text of a trace; one with more rows than 32 bits tell is never there.
fn trace_text(alloc: Global, outs: &List<Column>, trace: &Trace) -> Result<Vec<u8>, NoMemory>
    ensures { IfOk result (λ text. text.items ≡ text_of trace.now outs.now) }
{
    if trace.rows.len() >= 4_294_967_295 {
        return Err(NoMemory);
    }
    bl_rows::text(alloc, outs, trace)
}

/// Whether ticks were to be done: the names and their widths fit.
fn has_begun(how: Result<(), DriveFault>) -> bool
    ensures { result ≡ has_begun how }
{
    match how {
        Ok(()) => true,
        Err(DriveFault::Failed { .. } | DriveFault::Range { .. }) => true,
        Err(_) => false,
    }
}

fn end_of(last: Last, how: Result<(), DriveFault>) -> End
    ensures { result ≡ end_at last how }
{
    match how {
        Ok(()) => end_after(last),
        Err(fault) => fault_end(fault),
    }
}

fn end_after(last: Last) -> End
    ensures { result ≡ end_after last }
{
    match last {
        Last::Open | Last::Ended => End::Done,
        Last::Trap => End::Trapped,
    }
}

fn fault_end(fault: DriveFault) -> End
    ensures { result ≡ fault_end fault }
{
    match fault {
        DriveFault::Failed { .. } => End::PlantFault,
        DriveFault::Absent { .. } => End::PlantShape,
        DriveFault::Twice { .. } => End::PlantShape,
        DriveFault::Width { .. } => End::PlantShape,
        DriveFault::Range { .. } => End::PlantShape,
        DriveFault::NoMemory => End::NoMemory,
    }
}

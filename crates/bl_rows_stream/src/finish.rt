//! Ends of runs over files of rows.

ghost use Rattle.std.specs.Prelude.{◌≡◌};
ghost use Rattle.bl_rows_stream.specs.inner.Going.{progress_of};
ghost use Rattle.bl_rows_stream.specs.Streams.{finish_of, while_open};

use bl_rows::RowFault;
use bl_tree::Last;

/// How a run over a file of rows ended (docs/FORMATS.md, "Notes").
#[derive(Clone, Copy, PartialEq, Eq, Debug)]
pub enum Finish {
    /// The rows are used up, or the run has ended before that.
    Done,
    /// A tick trapped.
    Trapped,
    /// The run could go on, and this line, counted from 1, is the first bad one.
    BadRows { line: u32 },
    /// The file of rows failed, and what it handed over until then neither stopped the run nor is bad.
    ReadFault,
    /// What is written of the run couldn't be written.
    WriteFault,
    NoMemory,
}

/// How far a run has come behind a piece of the file.
#[derive(Clone, Copy)]
pub enum Progress {
    /// The next piece is wanted.
    Open,
    Over(Finish),
}

/// How far a run has come by a piece whose rows came to this, and that has this fault or none.
pub fn progress_by(last: Last, fault: Option<RowFault>) -> Progress
    ensures { result ≡ progress_of last fault }
{
    match (last, fault) {
        (Last::Open, None) => Progress::Open,
        (Last::Open | Last::Ended | Last::Trap, _) => Progress::Over(finish_by(last, fault)),
    }
}

/// How a run ends whose last rows came to this, over a file that has this fault or none.
pub fn finish_by(last: Last, fault: Option<RowFault>) -> Finish
    ensures { result ≡ finish_of last fault }
{
    match last {
        Last::Open => while_open(fault),
        Last::Ended => Finish::Done,
        Last::Trap => Finish::Trapped,
    }
}

// How a run ends that could go on.
fn while_open(fault: Option<RowFault>) -> Finish
    ensures { result ≡ while_open fault }
{
    match fault {
        None => Finish::Done,
        Some(
            RowFault::BadHeader { line } | RowFault::BadRow { line } | RowFault::LongLine { line },
        ) => Finish::BadRows { line },
        Some(RowFault::NoMemory) => Finish::NoMemory,
    }
}

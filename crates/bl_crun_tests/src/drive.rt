//! Texts that are loaded and driven over rows of inputs, and what is seen of their ticks.

use bl_cparse::parse;
use bl_crun::{Runner, TickAnswer};
use bl_ctext::{CFile, PRELUDE};
use bl_tree::Row;
use std::alloc::{AllocError, Global};
use std::process::Abort;
use std::test::Fail;

/// The longest text that is read.
const LONGEST: usize = 67_108_864;

/// What is seen of one tick.
#[derive(Clone, Copy, PartialEq, Eq, Debug)]
pub struct Seen {
    pub answer: TickAnswer,
    /// The first output.
    pub out: i128,
    /// How many statements were executed.
    pub count: u128,
    /// Whether the run can go on.
    pub live: bool,
}

/// A tick that isn't the last.
pub fn row(out: i128, count: u128) -> Seen {
    Seen {
        answer: TickAnswer::Row,
        out,
        count,
        live: true,
    }
}

/// A tick with which the run ends.
pub fn ended(out: i128, count: u128) -> Seen {
    Seen {
        answer: TickAnswer::Ended,
        out,
        count,
        live: false,
    }
}

/// A tick that traps, beside the output of the tick before it.
pub fn trap(out: i128, count: u128) -> Seen {
    Seen {
        answer: TickAnswer::Trap,
        out,
        count,
        live: false,
    }
}

// By itself, since each function in which these thousands of bytes stand takes long to prove.
fn prelude(alloc: Global) -> Result<Vec<u8>, AllocError> {
    Vec::from_slice(alloc, PRELUDE)
}

/// The prelude and these texts behind it.
fn text(alloc: Global, parts: &[&str]) -> Result<Vec<u8>, AllocError> {
    let mut text = prelude(alloc)?;
    for part in parts {
        text.extend_from_slice(part.as_bytes())?;
    }
    Ok(text)
}

/// The file of a text.
fn file(alloc: Global, text: &[u8]) -> Result<CFile, Fail> {
    if text.len() > LONGEST {
        return Err(Fail::new("too long"));
    }
    Ok(parse(alloc, text)?)
}

/// The file of the text of these parts.
fn file_of(alloc: Global, parts: &[&str]) -> Result<CFile, Fail> {
    let text = text(alloc, parts)?;
    file(alloc, &text)
}

/// The runner of a file.
fn load(alloc: Global, file: CFile) -> Result<Runner, Fail> {
    match Runner::load(alloc, file) {
        Ok(runner) => Ok(runner),
        Err((_, fault)) => Err(Fail::new(format_args!("{fault:?}"))),
    }
}

/// A row of these numbers, or of the first hundred.
pub fn row_of(alloc: Global, numbers: &[i128]) -> Result<Row, Fail> {
    let few = numbers.len().min(100) as u32;
    let mut row = Row::new(alloc, few)?;
    for k in 0..few {
        row.set(k, numbers[k as usize]);
    }
    Ok(row)
}

/// A row of zeros for the outputs.
fn outputs_of(alloc: Global, runner: &Runner) -> Result<Row, Fail> {
    let few = runner.outputs().len().min(100) as u32;
    Ok(Row::new(alloc, few)?)
}

/// A text that runs.
#[derive(Drop)]
pub struct Driven {
    pub runner: Runner,
    /// The outputs of the last tick that didn't trap.
    pub outs: Row,
}

/// The text of these parts before its first tick.
pub fn loaded(alloc: Global, parts: &[&str]) -> Result<Driven, Fail> {
    let runner = load(alloc, file_of(alloc, parts)?)?;
    let outs = outputs_of(alloc, &runner)?;
    Ok(Driven { runner, outs })
}

/// Does a tick, and tells how many statements it executed.
fn answer(runner: &mut Runner, ins: &Row, outs: &mut Row) -> Result<(TickAnswer, u128), Fail> {
    if !runner.live() || !runner.fits(ins) || outs.len() as usize != runner.outputs().len() {
        return Err(Fail::new("no tick can be done"));
    }
    let mut count = 0;
    let answer = runner.tick_counted(ins, outs, &mut count);
    Ok((answer, count))
}

fn first(row: &Row) -> Result<i128, Fail> {
    if row.len() == 0 {
        return Err(Fail::new("no output"));
    }
    Ok(row.at(0))
}

/// Does one more tick.
fn tick(driven: &mut Driven, ins: &Row) -> Result<Seen, Fail> {
    let (answer, count) = answer(&mut driven.runner, ins, &mut driven.outs)?;
    let out = first(&driven.outs)?;
    let live = driven.runner.live();
    Ok(Seen {
        answer,
        out,
        count,
        live,
    })
}

/// Does one more tick over these numbers.
pub fn next(alloc: Global, driven: &mut Driven, numbers: &[i128]) -> Result<Seen, Fail> {
    let ins = row_of(alloc, numbers)?;
    tick(driven, &ins)
}

/// Does one more tick over these numbers, and appends what is seen of it.
fn append(
    alloc: Global,
    driven: &mut Driven,
    numbers: &[i128],
    seen: &mut Vec<Seen>,
) -> Result<(), Fail> {
    let tick = next(alloc, driven, numbers)?;
    seen.push(tick)?;
    Ok(())
}

/// What is seen of a tick for each of the rows.
fn run(alloc: Global, parts: &[&str], rows: &[&[i128]]) -> Result<Vec<Seen>, Fail> {
    let mut driven = loaded(alloc, parts)?;
    let mut seen = Vec::new(alloc);
    for numbers in rows {
        append(alloc, &mut driven, numbers, &mut seen)?;
    }
    Ok(seen)
}

/// The text of these parts does so over these rows.
pub fn gives(
    rt: &impl Abort,
    alloc: Global,
    parts: &[&str],
    rows: &[&[i128]],
    expected: &[Seen],
) -> Result<(), Fail> {
    let seen = run(alloc, parts, rows)?;
    assert_eq!(rt; seen.as_slice(), expected, "{parts:?}");
    Ok(())
}

//! Calls on lists of plants, and what such a call leaves of its list.

ghost use Rattle.std.specs.Prelude.{◌≡◌, length, IfOk};
ghost use Rattle.bl_plant.specs.Kinds.{AreWide};

use crate::call::{Case, answer_among};
use crate::end::End;
use bl_plant::{Plant, PlantName, Ramp, Script, Tank, Turn};
use bl_tree::{List, Row};
use std::alloc::Global;
use std::test::Fail;

/// A row of numbers.
pub type Numbers = &'static [i128];

/// A plant as a call finds it.
#[derive(Clone, Copy)]
pub enum Made {
    /// The tank of the program.
    Tank,
    /// The ramp of the program.
    Ramp,
    /// A script of this name and width, which gives these rows and then has finished.
    Script(u32, u32, &'static [Numbers]),
    /// One that fails once it has given these rows.
    Failing(u32, u32, &'static [Numbers]),
}

/// A plant that calls leave in the list: its name, the rows that it gave, and those that it was told.
#[derive(Clone, Copy)]
pub struct Left(pub u32, pub &'static [Numbers], pub &'static [Numbers]);

/// A list of plants that is called on a few times, and what comes of that.
#[derive(Clone, Copy)]
pub struct Play {
    pub plants: &'static [Made],
    pub calls: u32,
    /// How the last call ends.
    pub end: End,
    /// What is left of the list, in its order.
    pub left: &'static [Left],
}

/// A row with these numbers, as far as it is wide.
fn row_of(alloc: Global, width: u32, numbers: &[i128]) -> Result<Row, Fail>
    ensures { IfOk result (λ row. length row ≡ width) }
{
    let mut row = Row::new(alloc, width)?;
    for k in 0..width {
        if let Some(number) = numbers.get(k as usize) {
            row.set(k, *number);
        }
    }
    Ok(row)
}

fn turns_of(alloc: Global, width: u32, rows: &[Numbers], fails: bool) -> Result<List<Turn>, Fail>
    ensures { IfOk result (λ turns. AreWide width turns) }
{
    let mut turns = List::new(alloc);
    for numbers in rows {
        turns.push(Turn::Give(row_of(alloc, width, numbers)?))?;
    }
    if fails {
        turns.push(Turn::Fail)?;
    }
    Ok(turns)
}

fn script_of(
    alloc: Global,
    name: u32,
    width: u32,
    rows: &[Numbers],
    fails: bool,
) -> Result<Script, Fail> {
    let turns = turns_of(alloc, width, rows, fails)?;
    Ok(Script::new(alloc, PlantName { number: name }, width, turns))
}

fn is_row(row: &Row, numbers: &[i128]) -> bool {
    if row.len() as usize != numbers.len() {
        return false;
    }
    for k in 0..row.len() {
        if row.at(k) != numbers[k as usize] {
            return false;
        }
    }
    true
}

fn are_rows(rows: &List<Row>, all: &[Numbers]) -> bool {
    if rows.len() != all.len() {
        return false;
    }
    for k in 0..all.len() {
        if !is_row(&rows[k], all[k]) {
            return false;
        }
    }
    true
}

impl Left {
    fn is(&self, plant: &Box<dyn Plant>) -> bool {
        let log = plant.log();
        plant.name().number == self.0 && are_rows(&log.given, self.1) && are_rows(&log.told, self.2)
    }
}

fn are_left(plants: &[Box<dyn Plant>], left: &[Left]) -> bool {
    if plants.len() != left.len() {
        return false;
    }
    for k in 0..plants.len() {
        if !left[k].is(&plants[k]) {
            return false;
        }
    }
    true
}

/// Whether the last of some calls on a list of plants ends so.
fn ends_among(
    alloc: Global,
    case: &Case,
    calls: u32,
    plants: &mut Vec<Box<dyn Plant>>,
    end: &End,
) -> Result<bool, Fail> {
    let mut ends = false;
    for _ in 0..calls {
        ends = end.is_end_of(&answer_among(alloc, case, plants)?);
    }
    Ok(ends)
}

/// Whether calls of this case play so.
pub fn plays(alloc: Global, case: &Case, play: &Play) -> Result<bool, Fail> {
    let mut plants: Vec<Box<dyn Plant>> = Vec::new(alloc);
    for made in play.plants {
        match made {
            Made::Tank => plants.push(Box::new(alloc, Tank::new(alloc, 500, 7, 40))?)?,
            Made::Ramp => plants.push(Box::new(alloc, Ramp::new(alloc, 0, 1))?)?,
            Made::Script(name, width, rows) => {
                let script = script_of(alloc, *name, *width, rows, false)?;
                plants.push(Box::new(alloc, script)?)?
            }
            Made::Failing(name, width, rows) => {
                let script = script_of(alloc, *name, *width, rows, true)?;
                plants.push(Box::new(alloc, script)?)?
            }
        }
    }
    let ends = ends_among(alloc, case, play.calls, &mut plants, &play.end)?;
    Ok(ends && are_left(&plants, play.left))
}

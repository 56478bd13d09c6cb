//! What a table of effects tells of the first statement of a program.

ghost use Rattle.std.specs.Prelude.{IfSome};
ghost use Rattle.bl_effects.specs.Table.{TableHasPlace, TableTellsEffects};
ghost use Rattle.bl_tree.specs.Within.{StandsInUnits, place_of};

use bl_cause::Accepted;
use bl_effects::Effects;
use bl_effects::laws::told_statements_are_there;
use bl_tree::tree::Stmt;
use bl_tree::{NoMemory, Program, Static};
use std::alloc::Global;

/// A static path: its variable, and its fields from the outermost inwards.
pub type Named = (u32, &'static [u32]);

/// What is told of a statement: what it reads, what it writes, and whether it may end in the tick in which it begins.
pub struct Told {
    pub reads: &'static [Named],
    pub writes: &'static [Named],
    pub instant: bool,
}

/// The first statement of the first unit.
fn first(program: &Program) -> Option<&Stmt>
    ensures { IfSome result (λ s. StandsInUnits program.now.units s.now) }
{
    let Some(unit) = program.units.as_slice().first() else {
        return None;
    };
    match unit.body.as_slice().first() {
        Some(s) => Some(s),
        None => None,
    }
}

fn is_path(path: &Static, named: &Named) -> bool {
    path.root == named.0 && path.fields.as_slice() == named.1
}

fn are_paths(paths: &[Static], named: &[Named]) -> bool {
    for (path, name) in paths.iter().zip(named) {
        if !is_path(path, name) {
            return false;
        }
    }
    paths.len() == named.len()
}

fn is_told_of(effects: &Effects, s: &Stmt, told: &Told) -> bool
    requires { TableHasPlace effects.now (place_of s.now) }
{
    are_paths(effects.reads(s.place), told.reads)
        && are_paths(effects.writes(s.place), told.writes)
        && effects.instant(s.place) == told.instant
}

/// Whether this is told of the first statement of an accepted program.
pub fn is_told(alloc: Global, accepted: &Accepted, told: &Told) -> Result<bool, NoMemory> {
    let effects = accepted.effects(alloc)?;
    Ok(is_told_first(&effects, accepted.program(), told))
}

/// Whether this is told of the first statement of the program that the table is of.
fn is_told_first(effects: &Effects, program: &Program, told: &Told) -> bool
    requires { TableTellsEffects effects.now program.now.units }
{
    told_statements_are_there();
    match first(program) {
        Some(s) => is_told_of(effects, s, told),
        None => false,
    }
}

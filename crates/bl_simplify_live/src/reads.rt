//! The names that blocks read.

ghost use Rattle.std.specs.Prelude.{◌≡◌, ◌++◌, map, IfOk, OnOk, true};
ghost use Rattle.bl_tree.specs.Reduce.{joined};
ghost use Rattle.bl_ctext_places.specs.Lists.{path_names, path_of};
ghost use Rattle.bl_ctext_places.specs.Names.{HasNames};
ghost use Rattle.bl_ctext_semantics.specs.inner.Maps.{text_at};
ghost use Rattle.bl_simplify_live.specs.Reads.{HasAll, read_in, reads_of};

use bl_ctext_places::{in_call, in_expr, in_indices};
use bl_ctext_semantics::maps::{add, has};
use bl_tree::NoMemory;
use bl_tree::c::{CPlace, CStmt, CStmtKind};
use std::alloc::Global;
use std::collections::HashMap;

/// Names.
pub type Names<'a> = HashMap<&'a str, ()>;

/// Lists the places that a statement reads: all but those that it sets.
#[cycle(reading)]
pub fn of_stmt<'a>(found: &mut Vec<&'a CPlace>, stmt: &'a CStmt) -> Result<(), NoMemory>
    ensures { OnOk result (map (λ p. path_of p.now) found.new.items ≡ map (λ p. path_of p.now) found.old.items ++ reads_of stmt.now) }
{
    match &stmt.what {
        CStmtKind::Set(place, value) => {
            in_indices(found, &place.steps)?;
            in_expr(found, value)
        }
        CStmtKind::Clear(place, _) => in_indices(found, &place.steps),
        CStmtKind::Call(call) => in_call(found, call),
        CStmtKind::If(condition, block, None) => {
            in_expr(found, condition)?;
            of_block(found, block)
        }
        CStmtKind::If(condition, block, Some(other)) => {
            in_expr(found, condition)?;
            of_block(found, block)?;
            of_block(found, other)
        }
        CStmtKind::Loop(_, condition, body) => {
            in_expr(found, condition)?;
            of_block(found, body)
        }
        CStmtKind::Break | CStmtKind::Return(None) => Ok(()),
        CStmtKind::Return(Some(value)) => in_expr(found, value),
    }
}

/// Lists the places that a block reads.
#[cycle(reading)]
pub fn of_block<'a>(found: &mut Vec<&'a CPlace>, block: &'a [CStmt]) -> Result<(), NoMemory>
    ensures { OnOk result (map (λ p. path_of p.now) found.new.items ≡ map (λ p. path_of p.now) found.old.items ++ joined (map reads_of block.now)) }
{
    for stmt in block {
        of_stmt(found, stmt)?;
    }
    Ok(())
}

/// The names with which places begin.
pub fn names_of<'a>(alloc: Global, places: &[&'a CPlace]) -> Result<Names<'a>, NoMemory>
    ensures { IfOk result (λ names. HasNames (text_at names) (path_names (map (λ p. path_of p.now) places.now))) }
{
    let mut names = HashMap::new(alloc);
    for place in places {
        add(&mut names, place.name.as_str(), ())?;
    }
    Ok(names)
}

/// Whether all of these places begin with one of the names.
fn has_all(names: &Names<'_>, places: &[&CPlace]) -> bool
    ensures { result ≡ true → HasAll (text_at names.now) (path_names (map (λ p. path_of p.now) places.now)) }
{
    let mut all = true;
    for place in places {
        all &= has(names, &place.name);
    }
    all
}

/// Whether all names that a block reads are among these.
pub fn has_all_read(alloc: Global, names: &Names<'_>, block: &[CStmt]) -> Result<bool, NoMemory>
    ensures { IfOk result (λ all. all ≡ true → HasAll (text_at names.now) (read_in block.now)) }
{
    let mut found = Vec::new(alloc);
    of_block(&mut found, block)?;
    Ok(has_all(names, &found))
}
